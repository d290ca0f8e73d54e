//! The statements of the table `meta`.
ghost use Rattle.std.specs.Prelude.{◌≡◌};
ghost use Rattle.sqlite.specs.Held.{state};
ghost use Rattle.sqlite.specs.State.{Survives};
ghost use Rattle.gaz_tables.specs.Metas.{AddsMeta, FindsTwo, Rewrites, rows_text};
ghost use Rattle.gaz_tables.specs.Schema.{meta};
ghost use Rattle.gaz_tables.specs.Stores.{Answers, FailsByOthers, Finds, KeepsInside, SparesInside};
ghost use Rattle.gaz_tables.specs.Stores.{Stays, StaysInside, WasOpen, WritesInside};

use sqlite::{Alter, Error, Row, Transaction, params};

/// `id`, `number` and `register` of at most two rows, within a transaction.
pub fn rows<S: Alter>(tx: &mut Transaction<'_, S>) -> Result<Vec<Row>, Error>
    ensures same_reference { tx.new.conn.ghost_name ≡ tx.old.conn.ghost_name }
    ensures answered { Answers S.Store tx.old.conn.now tx.new.conn.now rows_text result }
    ensures found { Finds S.Store tx.old.conn.now tx.new.conn.now meta result FindsTwo }
    ensures stays { Stays S.Store tx.old.conn.now tx.new.conn.now result }
    ensures open { WasOpen S.Store tx.old.conn.now tx.new.conn.now result }
    ensures reason { FailsByOthers S.Store tx.old.conn.now tx.new.conn.now result }
    ensures kept { KeepsInside S.Store tx.old.conn.now tx.new.conn.now }
    ensures leaves { Survives (state S.Store tx.old.conn.now) (state S.Store tx.new.conn.now)
        (λ _. ⊥) }
{
    tx.query_all("SELECT id, number, register FROM meta LIMIT 2", &[])
}

/// Adds the row of id 1, within a transaction.
pub fn insert<S: Alter>(
    tx: &mut Transaction<'_, S>,
    number: u32,
    register: &str,
) -> Result<usize, Error>
    ensures same_reference { tx.new.conn.ghost_name ≡ tx.old.conn.ghost_name }
    ensures added { WritesInside S.Store tx.old.conn.now tx.new.conn.now
        meta result (AddsMeta number register.now) }
    ensures spared { SparesInside S.Store tx.old.conn.now tx.new.conn.now result }
    ensures open { WasOpen S.Store tx.old.conn.now tx.new.conn.now result }
    ensures inside { StaysInside S.Store tx.old.conn.now tx.new.conn.now result }
{
    tx.execute(
        "INSERT INTO meta VALUES (1, ?1, ?2)",
        params![number, register],
    )
}

/// Gives the row of id 1 this number and register, within a transaction.
pub fn rewrite<S: Alter>(
    tx: &mut Transaction<'_, S>,
    number: u32,
    register: &str,
) -> Result<usize, Error>
    ensures same_reference { tx.new.conn.ghost_name ≡ tx.old.conn.ghost_name }
    ensures rewritten { WritesInside S.Store tx.old.conn.now tx.new.conn.now
        meta result (Rewrites number register.now) }
    ensures spared { SparesInside S.Store tx.old.conn.now tx.new.conn.now result }
    ensures open { WasOpen S.Store tx.old.conn.now tx.new.conn.now result }
    ensures inside { StaysInside S.Store tx.old.conn.now tx.new.conn.now result }
{
    tx.execute(
        "UPDATE meta SET number = ?1, register = ?2 WHERE id = 1",
        params![number, register],
    )
}

//! Statements alone, over the database in a file, as a script tells them.
//!
//! Each line of a script begins with a word, and a tab. Behind `sql` is the text of a statement.
//! Behind `run` are the values with which it runs, a tab between them: each a number, a text behind
//! `'` or bytes behind `x`. Behind `tell` is a name, which is printed with how many rows were found
//! since the last such line, and the nanoseconds that the statements took.

use crate::at_file::{Work, over_file};
use anyhow::{Context, Result, bail};
use sqlite::types::ValueRef;
use sqlite::{Alter, Connection, Error};
use std::alloc::Global;
use std::fs;
use std::time::Instant;

/// The statement that runs next, and what those took that ran since the last that was told.
#[derive(Clone, Copy)]
struct Played<'a> {
    sql: &'a str,
    rows: u64,
    nanos: u128,
}

// A number, or a text or bytes behind their sign.
fn value_of(word: &str) -> Option<ValueRef<'_>> {
    if let Some(text) = word.strip_prefix("'") {
        return Some(ValueRef::Text(text.as_bytes()));
    }
    if let Some(bytes) = word.strip_prefix("x") {
        return Some(ValueRef::Blob(bytes.as_bytes()));
    }
    Some(ValueRef::Int(word.parse::<i64>().ok()?))
}

fn values_of<'a>(alloc: Global, words: &'a str) -> Result<Vec<ValueRef<'a>>> {
    let mut values = Vec::new(alloc);
    for word in words.split('\t') {
        if !word.is_empty() {
            values.push(value_of(word).context("no value")?)?;
        }
    }
    Ok(values)
}

// How many rows a statement finds.
fn found<S: Alter>(
    conn: &mut Connection<S>,
    sql: &str,
    values: &[ValueRef<'_>],
) -> Result<usize, Error> {
    Ok(conn.query_all(sql, values)?.len())
}

// Runs a statement that finds no rows.
fn ran<S: Alter>(
    conn: &mut Connection<S>,
    sql: &str,
    values: &[ValueRef<'_>],
) -> Result<usize, Error> {
    conn.execute(sql, values)?;
    Ok(0)
}

// Runs the statement.
fn run<'a, S: Alter>(
    rt: &HostRuntime,
    conn: &mut Connection<S>,
    played: Played<'a>,
    words: &str,
) -> Result<Played<'a>> {
    let values = values_of(rt.alloc(), words)?;
    let start = Instant::now(rt)?;
    let rows = if played.sql.starts_with("SELECT") {
        found(conn, played.sql, &values)?
    } else {
        ran(conn, played.sql, &values)?
    };
    Ok(Played {
        sql: played.sql,
        rows: played.rows.saturating_add(rows as u64),
        nanos: played.nanos.saturating_add(start.elapsed(rt)?.as_nanos()),
    })
}

// The script begins anew with this statement.
fn anew(sql: &str) -> Played<'_> {
    Played {
        sql,
        rows: 0,
        nanos: 0,
    }
}

fn tell<'a>(rt: &HostRuntime, played: Played<'a>, name: &str) -> Result<Played<'a>> {
    println!(rt; "{name} {} {}", played.rows, played.nanos)?;
    Ok(anew(played.sql))
}

// Does what a line says.
fn step<'a, S: Alter>(
    rt: &HostRuntime,
    conn: &mut Connection<S>,
    played: Played<'a>,
    line: &'a str,
) -> Result<Played<'a>> {
    match line.split_once('\t') {
        Some(("sql", sql)) => Ok(Played { sql, ..played }),
        Some(("run", words)) => run(rt, conn, played, words),
        Some(("tell", name)) => tell(rt, played, name),
        _ => bail!("a line of a script without its word"),
    }
}

/// A script.
#[derive(Clone, Copy)]
struct Script<'a> {
    text: &'a str,
}

impl Work for Script<'_> {
    type Told = ();

    fn done<S: Alter + Drop>(
        self,
        rt: &HostRuntime,
        mut conn: Connection<S>,
    ) -> Result<(Option<Connection<S>>, ())> {
        let mut played = anew("");
        for line in self.text.lines() {
            played = step(rt, &mut conn, played, line)?;
        }
        Ok((Some(conn), ()))
    }
}

/// Plays the script in a file over the database in another, with so many pages at hand.
pub fn play_script(rt: &HostRuntime, path: &str, script: &str, pages: usize) -> Result<()> {
    let text = fs::read_to_string(rt, script)?;
    over_file(rt, path, pages, Script { text: &text })?.context("no connection")
}

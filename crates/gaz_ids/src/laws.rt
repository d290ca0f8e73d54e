ghost use Rattle.std.specs.Prelude.{◌≡◌};
ghost use Rattle.gaz_ids.specs.Codes.{CodesReadBack};
ghost use Rattle.gaz_ids.specs.Limits.{last_code, last_hop, last_uprn, last_usrn, last_volume};
ghost use Rattle.gaz_ids.specs.Limits.{most_bases, most_bytes, most_changes};
ghost use Rattle.gaz_ids.specs.Numbers.{read_id};

use crate::fault::IdFault;
use crate::limits::{
    LAST_CODE, LAST_HOP, LAST_UPRN, LAST_USRN, LAST_VOLUME, MOST_BASES, MOST_BYTES, MOST_CHANGES,
};
use crate::number::Hop;

/// A language and a status read back from their texts.
pub fn codes_read_back()
    ensures { CodesReadBack }
{}

/// The limits are those that the definitions name.
pub fn limits()
    ensures last_uprn { LAST_UPRN ≡ last_uprn }
    ensures last_usrn { LAST_USRN ≡ last_usrn }
    ensures last_code { LAST_CODE ≡ last_code }
    ensures last_hop { LAST_HOP ≡ last_hop }
    ensures last_volume { LAST_VOLUME ≡ last_volume }
    ensures most_bases { MOST_BASES ≡ most_bases }
    ensures most_changes { MOST_CHANGES ≡ most_changes }
    ensures most_bytes { MOST_BYTES ≡ most_bytes }
{}

/// A hop is read from at most four digits: 1 to `LAST_HOP`.
pub fn hops_are_read(text: &[u8]) -> Result<Hop, IdFault>
    ensures { result ≡ read_id 4 1 last_hop text.now }
{
    Hop::read(text)
}

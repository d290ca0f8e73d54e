//! What is at hand of one custodian.
ghost use Rattle.std.specs.Prelude.{IfSome};
ghost use Rattle.gaz_counts.specs.Counts.{OneJudged, OneMore};

/// How many of a custodian's volumes are judged, and how many of those above them are received.
#[derive(Clone, Copy, Drop)]
pub struct AtHand {
    pub reached: u64,
    /// None until it was asked for.
    pub held: Option<u64>,
}

impl AtHand {
    /// Once one more file waits. How many do is to be counted again where no number is left.
    pub fn one_more(self) -> AtHand
        ensures { OneMore self result }
    {
        match self.held {
            Some(held) if held < u64::MAX => AtHand {
                reached: self.reached,
                held: Some(held + 1),
            },
            _ => AtHand {
                reached: self.reached,
                held: None,
            },
        }
    }

    /// Once one that waited is judged, where a number is left for how many are. How many wait is to
    /// be counted again where none did.
    pub fn one_judged(self) -> Option<AtHand>
        ensures { IfSome result (OneJudged self) }
    {
        if self.reached == u64::MAX {
            return None;
        }
        let reached = self.reached + 1;
        match self.held {
            Some(held) if held > 0 => Some(AtHand {
                reached,
                held: Some(held - 1),
            }),
            _ => Some(AtHand {
                reached,
                held: None,
            }),
        }
    }
}

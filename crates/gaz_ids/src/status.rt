ghost use Rattle.std.specs.Prelude.{◌≡◌};
ghost use Rattle.gaz_ids.specs.Codes.{status_number, status_of, status_text};

/// The logical status of a BLPU or an LPI (our profile).
#[derive(Clone, Copy, PartialEq, Eq, Hash)]
pub enum Status {
    /// 1, approved or preferred.
    Approved,
    /// 3, alternative; of LPIs alone.
    Alternative,
    /// 6, provisional.
    Provisional,
    /// 8, historical.
    Historical,
}

impl Status {
    /// The status that one digit says.
    pub fn read(text: &[u8]) -> Option<Status>
        ensures { result ≡ status_of text.now }
    {
        if text == b"1".as_slice() {
            Some(Status::Approved)
        } else if text == b"3".as_slice() {
            Some(Status::Alternative)
        } else if text == b"6".as_slice() {
            Some(Status::Provisional)
        } else if text == b"8".as_slice() {
            Some(Status::Historical)
        } else {
            None
        }
    }

    /// The digit.
    pub fn text(self) -> &'static [u8]
        ensures { result.now ≡ status_text self }
    {
        match self {
            Status::Approved => b"1",
            Status::Alternative => b"3",
            Status::Provisional => b"6",
            Status::Historical => b"8",
        }
    }

    /// The number: 1, 3, 6 or 8.
    pub fn number(self) -> u8
        ensures { result ≡ status_number self }
    {
        match self {
            Status::Approved => 1,
            Status::Alternative => 3,
            Status::Provisional => 6,
            Status::Historical => 8,
        }
    }
}

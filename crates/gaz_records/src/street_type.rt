ghost use Rattle.std.specs.Prelude.{◌≡◌, true};
ghost use Rattle.gaz_records.specs.Streets.{is_type_number, type_number};

use gaz_ids::Number;

/// The number of a street's type, 1 to 4 (our profile).
pub(crate) type TypeNumber = Number<20, 1, 1, 4>;

/// What a street is known by (our profile).
#[derive(Clone, Copy)]
pub enum StreetType {
    /// 1: an officially designated name.
    DesignatedName,
    /// 2: a description.
    Description,
    /// 3: a number, as of a road.
    NumberedStreet,
    /// 4: an unofficial name.
    UnofficialName,
}

impl StreetType {
    /// The type of a number.
    pub(crate) fn of(number: TypeNumber) -> StreetType
        ensures { type_number result ≡ number }
    {
        match number.number() {
            1 => StreetType::DesignatedName,
            2 => StreetType::Description,
            3 => StreetType::NumberedStreet,
            _ => StreetType::UnofficialName,
        }
    }

    /// Its number, 1 to 4.
    pub fn number(self) -> u64
        ensures number { result ≡ type_number self }
        ensures range { is_type_number result ≡ true }
    {
        match self {
            StreetType::DesignatedName => 1,
            StreetType::Description => 2,
            StreetType::NumberedStreet => 3,
            StreetType::UnofficialName => 4,
        }
    }
}

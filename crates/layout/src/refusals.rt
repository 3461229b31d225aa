// The number of a refusal.
ghost use Rattle.layout.specs.Refusals.{number_of};
ghost use Rattle.std.specs.Prelude.{◌≡◌};

use crate::Class;

impl From<Class> for u8 {
    ghost from_gives = { λ class number. number ≡ number_of class };

    fn from(class: Class) -> u8 {
        match class {
            Class::Short => 1,
            Class::Version => 2,
            Class::Counts => 3,
            Class::Length => 4,
            Class::Behind => 5,
            Class::IllPolicy => 6,
            Class::IllNode => 7,
            Class::NoOwn => 8,
            Class::IllEdge => 9,
            Class::NoEdgeOut => 10,
            Class::EntriesShort => 11,
            Class::EntriesVersion => 12,
            Class::EntriesCount => 13,
            Class::EntriesLength => 14,
            Class::EntriesBehind => 15,
            Class::IllEntry => 16,
            Class::NoEntry => 17,
            Class::NoSuchOwn => 18,
            Class::NoteDiffers => 19,
            Class::NoRoom => 20,
            Class::OwnedByBoth => 21,
            Class::Unmatched => 22,
            Class::PoliciesDiffer => 23,
            Class::TooMany => 24,
        }
    }
}

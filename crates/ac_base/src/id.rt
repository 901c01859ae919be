//! UUIDs as numbers.
ghost use Rattle.std.specs.Prelude.{◌≡◌, ℕ};
ghost use Rattle.ac_base.specs.Texts.{id_value, id_text};

use std::marker::Model;
use uuid::Uuid;

/// A UUID as one number of 128 bits, which orders it.
///
/// Providers, trees and aggregates are named by it (API reference of Placement, `uuid`). The default is the nil UUID.
#[derive(Clone, Copy, Debug, Default, PartialEq, Eq, PartialOrd, Ord)]
pub struct Id {
    number: u128,
}

impl Model for Id {
    ghost Value = { ℕ };

    ghost view = { λ a. a.number };

    ghost inverse = { λ n. record { number = n } };
}

impl Id {
    /// Reads each text that the crate `uuid` parses: 32 hexadecimal digits, the hyphenated form, and that form
    /// in braces or behind `urn:uuid:`.
    pub fn read(text: &[u8]) -> Option<Id>
        ensures { result ≡ id_value text.now }
    {
        match Uuid::try_parse_ascii(text) {
            Ok(uuid) => Some(Id {
                number: uuid.as_u128(),
            }),
            Err(_) => None,
        }
    }

    /// The UUID of a number.
    pub fn from_u128(number: u128) -> Id
        ensures { result ≡ number }
    {
        Id { number }
    }

    /// The number, as `uuid` has it.
    pub fn as_u128(&self) -> u128
        ensures { result ≡ self.now }
    {
        self.number
    }

    /// The hyphenated form in lower case.
    pub fn text(&self) -> [u8; 36]
        ensures { result ≡ id_text self.now }
    {
        let mut buffer = [0; 36];
        let text = Uuid::from_u128(self.number)
            .hyphenated()
            .encode_lower(&mut buffer);
        let mut bytes = [0; 36];
        bytes.copy_from_slice(text.as_bytes());
        bytes
    }
}

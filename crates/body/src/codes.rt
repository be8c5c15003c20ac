// Call codes as bodies: two bytes, high byte first.
ghost use Rattle.std.specs.Prelude.{◌≡◌, ℕ};
ghost use Rattle.body.specs.Codes.{code_bytes, code_lawful};
ghost use Rattle.std.proofs.Common.{rules};

use crate::code::CallCode;
use crate::{Body, ShortBuffer, write_over};

// the number of this kind of body
const KIND: u8 = 1;

// how many bytes a call code tells
const SIZE: u8 = 2;

impl Body for CallCode {
    ghost kind = { 1 };

    ghost bytes = { code_bytes };

    ghost lawful = { code_lawful };

    ghost ranged = { Prim.search rules };

    ghost short = { Prim.search rules };

    ghost own = { Prim.search rules };

    ghost one = { Prim.search rules };

    fn kind() -> u8 {
        KIND
    }

    fn size(&self) -> u8 {
        SIZE
    }

    fn write(&self, out: &mut [u8]) -> Result<(), ShortBuffer> {
        write_over(&self.value.to_be_bytes(), out)
    }

    fn read(told: &[u8]) -> Option<CallCode> {
        match told {
            [high, low] => Some(CallCode {
                value: u16::from_be_bytes([*high, *low]),
            }),
            _ => None,
        }
    }
}

// A call code: a 16-bit number.
#[derive(Clone, Copy, Debug, PartialEq, Eq)]
pub struct CallCode {
    pub value: u16,
}

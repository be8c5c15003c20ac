// The fields of a packet, one after the other: each method answers a field and goes past it, or a fault.
ghost use Rattle.std.specs.Prelude.{◌≡◌, ◌<◌, if◌then◌else◌, Bool, [], ◌∷◌, length, take, drop, MatchResult, ◌==◌};
ghost use Rattle.std.specs.Fn.{FnOnceReturnsAtMut};
ghost use Rattle.questions.specs.Asking.{first_no};
ghost use Rattle.packet.specs.declared.fault.Fault.TheVariants.{Field};
ghost use Rattle.packet.specs.Faults.{refused};
ghost use Rattle.packet.specs.Layout.{byte_at, pair_from, count_from};
ghost use Rattle.packet_read.specs.Fields.{packet, asked, next_byte, next_word, needs, Takes};

use crate::reader::Reader;
use packet::Fault;
use tally::Pair;

impl<'a> Reader<'a> {
    // So many bytes.
    pub(crate) fn bytes(&mut self, size: u8) -> Result<&'a [u8], Fault>
        ensures { Takes self.old self.new result size (needs size self.old ∷ []) (λ b. b.now ≡ take size (drop self.old.place (packet self.old))) }
    {
        let (field, _) = self.packet[self.place..]
            .split_at_checked(size as usize)
            .ok_or(Fault::Short(self.packet.len()))?;
        self.place += size as usize;
        Ok(field)
    }

    // One byte.
    pub(crate) fn byte(&mut self) -> Result<u8, Fault>
        ensures { Takes self.old self.new result 1 (needs 1 self.old ∷ []) (λ b. b ≡ next_byte self.old) }
    {
        let field = self.bytes(1)?;
        Ok(field[0])
    }

    // A 16-bit number.
    pub(crate) fn word(&mut self) -> Result<u16, Fault>
        ensures { Takes self.old self.new result 2 (needs 2 self.old ∷ []) (λ n. n ≡ next_word self.old) }
    {
        let field = self.bytes(2)?;
        Ok(u16::from_be_bytes([field[0], field[1]]))
    }

    // A pair with its count: four bytes.
    pub(crate) fn pair(&mut self) -> Result<(Pair, u16), Fault>
        ensures { Takes self.old self.new result 4 (needs 4 self.old ∷ [])
            (λ x. (x.0 ≡ pair_from (packet self.old) self.old.place) × (x.1 ≡ count_from (packet self.old) self.old.place)) }
    {
        let field = self.bytes(4)?;
        let pair = Pair {
            station: field[0],
            handset: field[1],
        };
        Ok((pair, u16::from_be_bytes([field[2], field[3]])))
    }

    // A number that is read and then asked about; where the answer is no, the fault of a field at its place.
    pub(crate) fn field<N, R, A>(&mut self, read: R, accept: A) -> Result<N, Fault>
    where
        N: Copy,
        R: FnOnce(&mut Reader<'a>) -> Result<N, Fault>,
        A: FnOnce(N) -> bool,
        requires reads { R.IsAlwaysCallable read }
        requires asks { A.IsAlwaysCallable accept }
        ensures { (r : _) × FnOnceReturnsAtMut R.FnOnce read self.old r self.new
            × MatchResult r
            (λ n. (yes : Bool) × A.post accept n yes × (result ≡ (if yes then Ok n else Err (Field self.old.place))))
            (λ fault. result ≡ Err fault) }
    {
        let place = self.place;
        let number = read(self)?;
        if accept(number) {
            Ok(number)
        } else {
            Err(Fault::Field(place))
        }
    }

    // The kind of the body, which must be the one wanted.
    pub(crate) fn kind(&mut self, wanted: u8) -> Result<(), Fault>
        requires { self.old.place ≡ 5 }
        ensures { Takes self.old self.new result 1 (needs 1 self.old ∷ (refused 34 5, (byte_at (packet self.old) 5 == wanted)) ∷ []) (λ _. Unit {0}) }
    {
        if self.byte()? != wanted {
            return Err(Fault::Kind);
        }
        Ok(())
    }

    // Is that the end?
    pub(crate) fn end(&self) -> Result<(), Fault>
        ensures { asked result ≡ first_no ((refused 39 self.now.place, (length (packet self.now) == self.now.place)) ∷ []) }
    {
        if self.place < self.packet.len() {
            return Err(Fault::Trailing(self.place));
        }
        Ok(())
    }
}

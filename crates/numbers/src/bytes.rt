// Bytes at a place of an area: as they are, and those of a signed number in two's complement, low byte first.
ghost use Rattle.std.specs.Prelude.{◌≡◌, ◌+◌, ◌≤◌, length};
ghost use Rattle.std.proofs.lemmas.List.Edits.{sets};
ghost use Rattle.numbers.specs.Bytes.{whole_bytes, signed_bytes};

// A number of 64 bits.
pub const WHOLE_BYTES: usize = 8;

// The bytes as they are. It answers the place after them.
// Asks that the bytes fit at their place.
pub fn write_bytes(area: &mut [u8], at: usize, bytes: &[u8]) -> usize
    requires { at + length bytes.now ≤ length area.old }
    ensures value { result ≡ at + length bytes.now }
    ensures area_after { area.new ≡ sets area.old at bytes.now }
{
    let end = at + bytes.len();
    area[at..end].copy_from_slice(bytes);
    end
}

// Writes a number at a place of an area.
// Asks that its bytes fit at their place.
pub fn write_whole(area: &mut [u8], at: usize, n: i64)
    requires { at + whole_bytes ≤ length area.old }
    ensures { area.new ≡ sets area.old at (signed_bytes whole_bytes n) }
{
    area[at..at + WHOLE_BYTES].copy_from_slice(&n.to_le_bytes());
}

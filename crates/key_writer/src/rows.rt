// Rows packed into bytes. Eight numbers of `bits` bits fill exactly `bits` bytes, so rows are packed eight numbers at a
// time. The last numbers, fewer than eight, stand in the bytes that are left.
ghost use Rattle.std.specs.Prelude.{◌≡◌, ◌+◌, ◌^◌, ◌≤◌, length};
ghost use Rattle.base.specs.Packing.{Below, row_bytes, packed_row};
ghost use Rattle.base.specs.steps.Laying.{Laid};

use base::{number, spell};

// Packs a row into exactly the bytes that it needs.
fn pack(row: &[u8], bits: usize, bytes: &mut [u8])
    requires { (bits ≤ 8) × Below (2 ^ bits) row.now × (length bytes.old ≡ row_bytes bits (length row.now)) }
    ensures { bytes.new ≡ packed_row bits row.now }
{
    let size = base_rows::power(bits);
    let groups = row.len() / 8;
    for k in 0..groups {
        let (i, j) = (k * 8, k * bits);
        let v = number(&row[i..i + 8], size);
        spell(&mut bytes[j..j + bits], 256, v);
    }
    let rest = number(&row[groups * 8..], size);
    let unit = base_rows::filler_values(bits, row.len());
    spell(&mut bytes[groups * bits..], 256, rest * unit);
}

// Packs a row at place `at` of an output, and returns the place after the row.
pub fn pack_at(out: &mut [u8], at: usize, row: &[u8], bits: usize) -> usize
    requires { (bits ≤ 8) × Below (2 ^ bits) row.now × (at + row_bytes bits (length row.now) ≤ length out.old) }
    ensures { Laid at (packed_row bits row.now) out.old out.new result }
{
    let end = at + base_rows::row_bytes(bits, row.len());
    pack(row, bits, &mut out[at..end]);
    end
}

// How a word gets into the row and out of it.
ghost use Rattle.std.specs.Prelude.{◌+◌, ◌-◌, ◌≤◌, ◌≡◌, length, take, drop};
ghost use Rattle.handle_row.specs.steps.Gaps.{gapped, Gathers};

// Lays codes out at the end of a row.
pub fn lay(row: &mut [u8], codes: &[u8])
    requires { length codes.now ≤ length row.old }
    ensures { drop (length row.old - length codes.now) row.new ≡ codes.now }
{
    let start = row.len() - codes.len();
    row[start..].copy_from_slice(codes);
}

// Gathers the word around a gap at the front of the codes.
pub fn gather(row: &[u8], left: usize, right: usize, codes: &mut [u8])
    requires { Gathers row.now left right codes.old }
    ensures { take (left + (length row.now - right)) codes.new ≡ gapped row.now left right }
{
    let rest = &row[right..];
    codes[..left].copy_from_slice(&row[..left]);
    codes[left..left + rest.len()].copy_from_slice(rest);
}

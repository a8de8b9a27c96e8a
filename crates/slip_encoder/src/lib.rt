// The braid of a digest as a word file.
#![tactic(auto)]

ghost use Rattle.std.specs.Prelude.{◌≡◌, ◌||◌};
ghost use Rattle.field.specs.declared.Field.TheVariants.{Gf32, Gf256};
ghost use Rattle.slip_digest.specs.Digest.{is_digest, WroteEncoded};

use field::Field;
use word::Written;

// Has the digest the length that goes with one of the two fields?
fn is_either(digest: &[u8]) -> bool
    ensures { result ≡ (is_digest Gf32 digest.now || is_digest Gf256 digest.now) }
{
    slip_digest::is_digest(digest, Field::Gf32) || slip_digest::is_digest(digest, Field::Gf256)
}

// The encoder alone: 15, 8. It writes the whole braid as a word file. Nothing is cancelled.
pub fn encode(digest: &[u8], out: &mut [u8]) -> Written
    ensures { WroteEncoded digest.now out.old out.new result.answer result.bytes }
{
    if out.len() < word::MAX_BYTES {
        return Written::refused(15);
    }
    if !is_either(digest) {
        return Written::refused(8);
    }
    let mut codes = [0u8; 2560];
    let n = slip_digest::encode_into(digest, &mut codes);
    word_writer::write_word(&codes[..n], out)
}

// The letters charged on a key shelf: admits a slip, charges its letters, starts a new round.
#![tactic(auto)]

ghost use Rattle.std.specs.Prelude.{◌+◌, ◌≤◌, ◌≡◌, true, length};
ghost use Rattle.shelf.specs.Shelves.{shelf_bytes, is_publisher, replaced};
ghost use Rattle.shelf.specs.Charges.{over_by, charge_place, partner, admitted, charging, new_round};

// The bytes of the eight slots, which stand before the charges.
const SLOTS_BYTES: usize = 1032;

// The letters of which each publisher is sure, and the letters for whoever comes first.
const SURE: usize = 10000;

const FURTHER: usize = 10000;

// Stores these bytes in a shelf from place `at` on, in place of the bytes there.
pub fn replace(shelf: &mut [u8], at: usize, bytes: &[u8])
    requires { at + length bytes.now ≤ length shelf.old }
    ensures { shelf.new ≡ replaced at bytes.now shelf.old }
{
    base::put(&mut shelf[at..], bytes);
}

// The place of the letters charged to a publisher.
fn charge_place(publisher: usize) -> usize
    requires { is_publisher publisher ≡ true }
    ensures { (result ≡ charge_place publisher) × (result + 2 ≤ shelf_bytes) }
{
    SLOTS_BYTES + 2 * (publisher - 1)
}

// The other publisher.
fn partner(publisher: usize) -> usize
    requires { is_publisher publisher ≡ true }
    ensures { (result ≡ partner publisher) × (is_publisher result ≡ true) }
{
    3 - publisher
}

// The amount by which a charge is over 10,000.
fn over_by(charge: usize) -> usize
    ensures { result ≡ over_by charge }
{
    charge.saturating_sub(SURE)
}

// Is a slip of this many letters admitted?
pub fn is_admitted(shelf: &[u8], publisher: usize, letters: usize) -> bool
    requires { (shelf_bytes ≤ length shelf.now) × (is_publisher publisher ≡ true) × (letters ≤ 10000) }
    ensures { result ≡ admitted publisher letters shelf.now }
{
    let own = charge_place(publisher);
    let other = partner(publisher);
    let others = charge_place(other);
    let own_charge = base::two_bytes(shelf, own);
    let other_charge = base::two_bytes(shelf, others);
    over_by(own_charge + letters) + over_by(other_charge) <= FURTHER
}

// Charges letters to a publisher.
pub fn charge(shelf: &mut [u8], publisher: usize, letters: usize)
    requires { (shelf_bytes ≤ length shelf.old) × (is_publisher publisher ≡ true) × (letters ≤ 10000) }
    ensures { shelf.new ≡ charging publisher letters shelf.old }
{
    let at = charge_place(publisher);
    let sum = base::two_bytes(shelf, at) + letters;
    let mut two = [0u8; 2];
    base::spell(&mut two, 256, sum as u64);
    replace(shelf, at, &two);
}

// Starts a new round: both charges are zero.
pub fn start_round(shelf: &mut [u8])
    requires { shelf_bytes ≤ length shelf.old }
    ensures { shelf.new ≡ new_round shelf.old }
{
    replace(shelf, SLOTS_BYTES, &[0; 4]);
}

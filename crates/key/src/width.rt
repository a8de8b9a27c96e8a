// What differs between the key files of the two fields: the number of bytes, and the places where the parts of a file
// begin.
ghost use Rattle.std.specs.Prelude.{◌≡◌, ◌≤◌};
ghost use Rattle.key.specs.steps.Places.{key_place, file_bytes};

// The number of bytes of a key file, over GF(32) and over GF(256).
pub const SMALL_BYTES: usize = 83;

pub const LARGE_BYTES: usize = 128;

// The T-values come after N, which has 1 byte, and q, which has 2.
pub const VALUES_PLACE: usize = 3;

// Where the matrix of Pub(S) begins, if an element has `bits` bits.
pub fn first_place(bits: usize) -> usize
    requires { bits ≤ 8 }
    ensures { result ≡ key_place bits 3 }
{
    VALUES_PLACE + base_rows::row_bytes(bits, 8)
}

// Where the list of Pub(S) begins.
pub fn labels_place(bits: usize) -> usize
    requires { bits ≤ 8 }
    ensures { result ≡ key_place bits 4 }
{
    first_place(bits) + base_rows::row_bytes(bits, 57)
}

// Where the matrix of Pub(S') begins.
pub fn second_place(bits: usize) -> usize
    requires { bits ≤ 8 }
    ensures { result ≡ key_place bits 5 }
{
    labels_place(bits) + base_rows::row_bytes(3, 8)
}

// The number of bytes of a key file.
pub fn file_bytes(bits: usize) -> usize
    requires { bits ≤ 8 }
    ensures { result ≡ file_bytes bits }
{
    second_place(bits) + base_rows::row_bytes(bits, 57)
}

// Amounts as bytes, lowest byte first: the totals that a unit holds.
#![tactic(auto)]

ghost use Rattle.std.specs.Prelude.{◌≡◌, length};
ghost use Rattle.model.specs.Turns.{amount, in_bytes};

// The number that eight bytes hold.
pub fn amount_of(bytes: &[u8]) -> u64
    requires { length bytes.now ≡ 8 }
    ensures { result ≡ amount bytes.now }
{
    u64::from_le_bytes(bytes.try_into().unwrap())
}

// The eight bytes that hold a number.
pub fn bytes_of(value: u64) -> [u8; 8]
    ensures { result ≡ in_bytes 8 value }
{
    value.to_le_bytes()
}

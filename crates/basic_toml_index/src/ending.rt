//! The ending of a key: its last eight bytes as one number, zeros before a shorter key.
ghost use Rattle.std.specs.Prelude.{◌≡◌, length};
ghost use Rattle.basic_toml_index.specs.Index as spec;

pub fn ending_of(key: &str) -> u64
    ensures { result ≡ spec.ending_of key.now }
{
    u64::from_be_bytes(last_eight(key.as_bytes()))
}

fn last_eight(bytes: &[u8]) -> [u8; 8]
    ensures { result ≡ spec.last_eight bytes.now }
{
    let len = bytes.len();
    if len >= 8 {
        return eight(&bytes[len - 8..]);
    }
    let mut last = [0; 8];
    last[8 - len..].copy_from_slice(bytes);
    last
}

fn eight(bytes: &[u8]) -> [u8; 8]
    requires { length bytes.now ≡ 8 }
    ensures { result ≡ bytes.now }
{
    [
        bytes[0], bytes[1], bytes[2], bytes[3], bytes[4], bytes[5], bytes[6], bytes[7],
    ]
}

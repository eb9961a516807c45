//! The record that trims a tag, read without memory.

ghost use Rattle.std.specs.Prelude.{◌≡◌, length};
ghost use Rattle.std.specs.Int.{w64, from_be_bytes};
ghost use Rattle.rec_codec.specs.Reading.{read, trim_in};

use lb_base::Seqnum;

/// The number that eight bytes spell, the greatest byte first.
fn number(bytes: &[u8]) -> u64
    requires { length bytes.now ≡ 8 }
    ensures { result ≡ from_be_bytes w64 bytes.now }
{
    u64::from_be_bytes([
        bytes[0], bytes[1], bytes[2], bytes[3], bytes[4], bytes[5], bytes[6], bytes[7],
    ])
}

/// The user tag and the bound of a trimmed tag, where the bytes are the record of one. It takes no memory.
pub fn trim_tag_of(bytes: &[u8]) -> Option<(u64, Seqnum)>
    ensures { result ≡ trim_in (read bytes.now) }
{
    if bytes.len() != 18 || bytes[0] != 1 || bytes[1] != 15 {
        return None;
    }
    let tag = number(&bytes[2..10]);
    let upto = number(&bytes[10..18]);
    if tag >= 72_057_594_037_927_936 {
        return None;
    }
    Some((tag, Seqnum(upto)))
}

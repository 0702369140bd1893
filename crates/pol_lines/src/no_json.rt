//! Lines that are no JSON by their first and last byte.
ghost use Rattle.std.specs.Prelude.{◌≡◌, None, IsTrue};
ghost use Rattle.serde_json.specs.Read.{read};
ghost use Rattle.pol_lines.specs.Ends.{begins_value, may_end, opens};

fn begins_value(byte: u8) -> bool
    ensures { result ≡ begins_value byte }
{
    match byte {
        b'{' | b'[' | b'"' | b'-' | b'0'..=b'9' | b't' | b'f' | b'n' => true,
        _ => matches!(byte, b' ' | b'\t' | b'\n' | b'\r'),
    }
}

fn may_end(byte: u8) -> bool
    ensures { result ≡ may_end byte }
{
    matches!(byte, b'}' | b']' | b' ' | b'\t' | b'\n' | b'\r')
}

fn opens(byte: u8) -> bool
    ensures { result ≡ opens byte }
{
    matches!(byte, b'{' | b'[')
}

/// Whether a line of two bytes or more is no JSON by its ends: no value begins so, or an object or a list was cut off
/// (RFC 8259, section 2). Not all that is no JSON is found so.
pub fn is_no_json(line: &[u8]) -> bool
    ensures { IsTrue result → read line.now ≡ None }
{
    let [first, .., last] = line else {
        return false;
    };
    if opens(*first) {
        !may_end(*last)
    } else {
        !begins_value(*first)
    }
}

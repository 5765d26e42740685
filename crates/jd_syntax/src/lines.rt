//! Counts lines.
ghost use Rattle.std.specs.Prelude.{◌≡◌, ◌+◌, ◌<◌, ◌^◌, length};
ghost use Rattle.jd_syntax.specs.Refusal.{line_behind};

/// The line, counted from 1, of a place with these bytes before it.
pub fn line_behind(before: &[u8]) -> u32
    requires { length before.now + 1 < 2 ^ 32 }
    ensures { result ≡ line_behind before.now }
{
    let mut line = 1;
    for byte in before {
        if *byte == b'\n' {
            line += 1;
        }
    }
    line
}

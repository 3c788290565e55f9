//! The line of a datagram in hexadecimal digits.

ghost use Rattle.std.specs.Prelude.{◌≡◌, ◌≤◌, IfOk, IfSome, option_map, take};
ghost use Rattle.std.specs.Result.{result_map_both};
ghost use Rattle.ptu_script.specs.Command.{is_comment};
ghost use Rattle.ptu_show.specs.Reading.{datagram_in};

use ptu_lines::{LineCause, octets};
use ptu_units::sizes::LONGEST_DATAGRAM;

// Whether a line is empty or begins with `#`.
fn is_comment_line(line: &[u8]) -> bool
    ensures { result ≡ is_comment line.now }
{
    match line {
        [] => true,
        [first, ..] => *first == b'#',
    }
}

/// Reads a line that writes a datagram of at most 2048 octets in hexadecimal digits, or `-` where
/// it is empty. The datagram is put at the front of the room, and its size in octets is answered;
/// `None` where the line is empty or begins with `#`, and so writes none.
///
/// # Errors
/// `Field(1)` exactly where the line is of another form; then the content of the room is not said.
pub fn read_datagram(
    line: &[u8],
    room: &mut [u8; LONGEST_DATAGRAM],
) -> Result<Option<usize>, LineCause>
    ensures datagram { result_map_both (option_map (λ size. take size room.new)) (λ cause. cause)
        result ≡ datagram_in line.now }
    ensures within { IfOk result (λ size. IfSome size (λ n. n ≤ 2048)) }
{
    if is_comment_line(line) {
        return Ok(None);
    }
    match octets(line, room) {
        Some(size) => Ok(Some(size)),
        None => Err(LineCause::Field(1)),
    }
}

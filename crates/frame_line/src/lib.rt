// A line of the session program: `stamp,width,height` and the luma values, in decimal (RULES 11.2, 11.3).
#![tactic(auto)]

ghost use Rattle.std.specs.Prelude.{◌≡◌, ◌*◌, take, IfSome};
ghost use Rattle.frame_line.specs.Line.{line_of, luma_of, fields};

use timestamp::Timestamp;

// The most bytes of a frame line, its line feed not counted (RULES 11.3).
const MOST_BYTES: usize = 8192;

// The most pixels of its frame (RULES 11.3): so many luma values are lent.
pub const MOST_PIXELS: usize = 1024;

// The greatest side that a line may say, of 32 bits: 1 refuses far smaller ones (`frame::MOST_SIDE`).
const LARGEST_SIDE_READ: u64 = u32::MAX as u64;

// The greatest luma value.
const MOST_VALUE: u64 = u8::MAX as u64;

// What a frame line says.
#[derive(Clone, Copy, Debug, PartialEq, Eq)]
pub struct FrameLine {
    pub stamp: Timestamp,
    pub width: u32,
    pub height: u32,
}

// What the line says. Where it is a frame line, the first width * height bytes of luma are its values, and any value of
// the others is right; where it is none, any value of all of them is.
// Kept: no heap: the luma values are lent, and the sides say how many of them there are.
pub fn read_line(line: &[u8], luma: &mut [u8; MOST_PIXELS]) -> Option<FrameLine>
    ensures value { result ≡ line_of line.now }
    ensures luma_after { IfSome result (λ f. take (f.width * f.height) luma.new ≡ luma_of (fields line.now)) }
{
    if line.len() > MOST_BYTES {
        return None;
    }
    let mut fields = line.split(|b| *b == b',');
    let stamp = decimal::read_stamp(fields.next()?)?;
    let width = decimal::read_number(fields.next()?, LARGEST_SIDE_READ)?;
    let height = decimal::read_number(fields.next()?, LARGEST_SIDE_READ)?;
    let n = width * height;
    if n > MOST_PIXELS as u64 {
        return None;
    }
    for value in luma[..n as usize].iter_mut() {
        *value = decimal::read_number(fields.next()?, MOST_VALUE)? as u8;
    }
    if fields.next().is_some() {
        return None;
    }
    Some(FrameLine {
        stamp,
        width: width as u32,
        height: height as u32,
    })
}

// All 2^24 pixels through `bgr_to_hsv_pixel`: a digest for each 2^20 of them, as compare/README.md states.
#![tactic(auto)]

ghost use Rattle.std.specs.Prelude.{◌≡◌, ◌*◌, ◌<◌};
ghost use Rattle.replay.specs.Digest.{fed};
ghost use Rattle.replay_hsv.specs.Pixels.{pixel_bytes, digest_of};

use replay::Digest;
use std::io;

// One pixel's hue, saturation and value.
#[tactic(auto, unfolding(replay::specs::Digest::fed, arch_hsv::specs::Hsv::hsv_of))]
fn pixel(d: Digest, p: u32) -> Digest
    requires { p < 16777216 }
    ensures { result ≡ fed d (pixel_bytes p) }
{
    let hsv = arch_hsv::bgr_to_hsv_pixel((p / 65536) as u8, (p / 256 % 256) as u8, (p % 256) as u8);
    d.step(hsv.h).step(hsv.s).step(hsv.v)
}

// The pixels from part * 2^20 on.
fn digest_of(part: u32) -> Digest
    requires { part < 16 }
    ensures { result ≡ digest_of (part * 1048576) 1048576 }
{
    let first = part * 1048576;
    let mut d = Digest::empty();
    for i in 0..1048576 {
        d = pixel(d, first + i);
    }
    d
}

fn main(rt: HostRuntime) -> io::Result<()> {
    for part in 0..16u32 {
        replay::print_line(&rt, "hsv", part as u64, digest_of(part).value())?;
    }
    Ok(())
}

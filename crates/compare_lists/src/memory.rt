// What a frame call is lent: planes with their padding, store, scratch and magnitudes, of the lengths needed or a few more, and
// in faulty calls one less.
// Kept, point 1: kinds and faults are bytes of the record, whose values compare/README.md gives.
ghost use Rattle.std.specs.Prelude.{◌≡◌, cond, ◌-◌, ◌≤◌, length};
ghost use Rattle.compare_lists.specs.Memory.{area_of, faults_of, lent_of, least_of, padding_of, numbers_of, renewed_by, count_of, start_of, kind_of, renewed_plane, number_after};

use crate::input::{Record, Size};

// The numbers of a frame call.
// Kept: how much of each lent memory a call is given.
#[derive(Clone, Copy)]
pub struct Numbers {
    pub width: u32,
    pub height: u32,
    pub stride: u32,
    // Bytes of a plane that is not short.
    pub need: usize,
    // Lengths that are lent.
    pub data: usize,
    pub saturation: usize,
    pub value: usize,
    pub store: usize,
    pub scratch: usize,
    pub magnitudes: usize,
}

// The planes of a list's frames, taken from the start on.
#[derive(Drop)]
pub struct Planes {
    pub hue: [u8; 5120],
    pub saturation: [u8; 5120],
    pub value: [u8; 5120],
}

// The memory of a list.
#[derive(Drop)]
pub struct Memory {
    pub planes: Planes,
    pub store: [u8; 6528],
    pub scratch: [u8; 11520],
    pub magnitudes: [i32; 1664],
}

impl Memory {
    pub(crate) fn new() -> Self {
        Memory {
            planes: Planes {
                hue: [0; 5120],
                saturation: [0; 5120],
                value: [0; 5120],
            },
            store: [0; 6528],
            scratch: [0; 11520],
            magnitudes: [0; 1664],
        }
    }
}

// w * h; 0 where a side is larger than those of the lists.
#[tactic(auto, unfolding(crate::specs::Memory::area_of))]
pub fn area(w: u32, h: u32) -> usize
    ensures value { result ≡ area_of w h }
    ensures upper_bound { result ≤ 5248 }
{
    if w <= 128 && h <= 41 {
        w as usize * h as usize
    } else {
        0
    }
}

// The length lent where `need` is asked for: one less, or up to three more.
#[tactic(auto, unfolding(crate::specs::Memory::lent_of))]
fn lent(need: usize, more: u32, short: bool) -> usize
    requires { need ≤ 65536 }
    ensures { result ≡ lent_of need more short }
{
    if short {
        need.saturating_sub(1)
    } else {
        need + (more % 4) as usize
    }
}

// Eight faults as bits; one call in four has any.
#[tactic(auto, unfolding(crate::specs::Memory::faults_of))]
fn faults(r: Record<'_>) -> u32
    ensures { result ≡ faults_of r.entry.script.now r.entry.i }
{
    if r.byte(13) % 4 == 0 {
        r.byte(14) & r.byte(15)
    } else {
        0
    }
}

// The least stride: BGR has three bytes to a pixel.
#[tactic(auto, unfolding(crate::specs::Memory::least_of))]
fn least(kind: u32, width: u32) -> u32
    ensures value { result ≡ least_of kind width }
    ensures upper_bound { result ≤ 120 }
{
    match kind {
        11..=20 => 3 * width.min(40),
        _ => width.min(40),
    }
}

#[tactic(auto, unfolding(crate::specs::Memory::padding_of))]
fn padding(b: u32) -> u32
    ensures value { result ≡ padding_of b }
    ensures upper_bound { result ≤ 3 }
{
    if b < 128 { 0 } else { b % 4 }
}

// The numbers of a call.
#[tactic(auto, unfolding(crate::specs::Memory::numbers_by))]
pub fn frame(size: Size, r: Record<'_>) -> Numbers
    ensures { result ≡ numbers_of size r.entry.script.now r.entry.i }
{
    let fault = faults(r);
    let more = r.byte(7);
    let narrow = least(r.byte(0) % 32, size.width);
    let stride = narrow + padding(r.byte(6));
    let need = area(stride, size.height);
    let n = area(size.width, size.height);
    let side = size.width.max(size.height).min(40) as usize;
    Numbers {
        width: if fault % 2 == 1 { 4097 } else { size.width },
        height: size.height,
        stride: strided(stride, narrow, fault / 2 % 2 == 1),
        need,
        data: lent(need, more, fault / 4 % 2 == 1),
        saturation: lent(need, more / 4, fault / 8 % 2 == 1),
        value: lent(need, more / 16, fault / 16 % 2 == 1),
        store: lent(4 * n, more / 64, fault / 32 % 2 == 1),
        scratch: lent(7 * n + 2 * side, more / 2, fault / 64 % 2 == 1),
        magnitudes: lent(n, more / 8, fault / 128 % 2 == 1),
    }
}

// The stride, or one less than the least.
fn strided(stride: u32, narrow: u32, short: bool) -> u32
    ensures { result ≡ cond short (narrow - 1) stride }
{
    if short {
        narrow.saturating_sub(1)
    } else {
        stride
    }
}

// How many bytes of each plane a call renews: none, a part, or all.
#[tactic(auto, unfolding(crate::specs::Memory::renewed_by))]
fn renewed(need: usize, kind: u32, b: u32) -> usize
    ensures { result ≡ renewed_by need kind b }
{
    match kind {
        0 => 0,
        1 => need.min(b as usize),
        _ => need,
    }
}

// A run of the generator for kinds 0 to 3; one byte throughout for the others. Returns the generator's number after it.
// Kept: n beside the plane, since a call may renew more than a plane holds: the cut stands once here, and not at each of the three planes.
fn renew(plane: &mut [u8], n: usize, x: u32, kind: u32) -> u32
    ensures value { result ≡ number_after plane.old n x kind }
    ensures plane_after { plane.new ≡ renewed_plane plane.old n x kind }
{
    let e = n.min(plane.len());
    if kind <= 3 {
        replay::fill(&mut plane[..e], x, kind)
    } else {
        let y = replay::next(x);
        plane[..e].fill(replay::byte(y));
        y
    }
}

// Renews the first bytes of the planes; the others are as the last frame had them.
pub fn refill(r: Record<'_>, need: usize, hue: &mut [u8], saturation: &mut [u8], value: &mut [u8])
    ensures hue_after { hue.new ≡ renewed_plane hue.old (count_of need r.entry.script.now r.entry.i) (start_of r.entry.script.now r.entry.i) (kind_of r.entry.script.now r.entry.i) }
    ensures saturation_after { saturation.new ≡ renewed_plane saturation.old (count_of need r.entry.script.now r.entry.i) (number_after hue.old (count_of need r.entry.script.now r.entry.i) (start_of r.entry.script.now r.entry.i) (kind_of r.entry.script.now r.entry.i)) (kind_of r.entry.script.now r.entry.i) }
    ensures value_after { value.new ≡ renewed_plane value.old (count_of need r.entry.script.now r.entry.i) (number_after saturation.old (count_of need r.entry.script.now r.entry.i) (number_after hue.old (count_of need r.entry.script.now r.entry.i) (start_of r.entry.script.now r.entry.i) (kind_of r.entry.script.now r.entry.i)) (kind_of r.entry.script.now r.entry.i)) (kind_of r.entry.script.now r.entry.i) }
{
    let kind = r.byte(8) % 8;
    let n = renewed(need, r.byte(9) % 4, r.byte(10));
    let x = r.byte(11) * 256 + r.byte(12);
    let y = renew(hue, n, x, kind);
    let z = renew(saturation, n, y, kind);
    renew(value, n, z, kind);
}

// The whole session, callable from other languages: compare/ holds it against the Rust. A slice passes as a pointer and then a length.
#![tactic(auto)]

ghost use Rattle.std.specs.Prelude.{◌==◌, if◌then◌else◌};
ghost use Rattle.session.specs.Promises.{IsOutput};

// The output of the input, which is fed in chunks of `size` bytes (0: the whole). Returns how many bytes of `out` it wrote; the others
// stay. No output is empty: 0 says that `out` had no room, and then any bytes of `out` are right. 64 bytes more than the output are
// always room enough.
#[unsafe(no_mangle)]
pub extern "C" fn mw_session(input: &[u8], size: usize, out: &mut [u8]) -> u64
    ensures { IsOutput input.now out.old out.new (if result == 0 then None else Some result) }
{
    // Kept: by cases, as the promise is; by `map_or` it would be shown of a closure.
    match session::run(input, size, out) {
        Some(written) => written as u64,
        None => 0,
    }
}

// The intake of a time, which is no C function.
// In hundredths, in the first place of `out`; or the refusal's number.
pub fn take_time(x: f32, out: &mut [i32; 17]) -> u32 {
    match intake::take_time(x) {
        Ok(time) => {
            out[0] = time.0 as i32;
            0
        }
        Err(refusal) => refusal.number(),
    }
}

// The room that a record needs in the output, known before it is carried out.
ghost use Rattle.std.specs.Prelude.{◌≡◌, List, ℕ, Float, length};
ghost use Rattle.memory.specs.Memory.{before, engine_of};
ghost use Rattle.apply.specs.Applying.{applied_to, applied_out};
ghost use Rattle.record_output.specs.Lines.{room_for};
ghost use Rattle.player.specs.Records.{left_by};
ghost use Rattle.player.specs.Carrying.{tick_bytes, block_bytes, sound_bytes};

use memory::{CHANNELS, CLOCK, DURATION, Levels, Marks, Numbers, Times};
use record_output::Form;
use refusals::{process_refusal, tick_refusal};
use tape::reader::Call;

// The bytes of a tick: four a channel, and none where it is refused.
fn tick_bytes(outputs: usize, time: f64, duration: f64) -> usize
    ensures { result ≡ tick_bytes outputs time duration }
{
    let channels = outputs.min(8);
    match tick_refusal(channels, outputs, time, duration) {
        Some(_) => 0,
        None => 4 * channels,
    }
}

// The bytes of a block: four a sample of each channel, and none where it is refused.
fn block_bytes(size: u8, outputs: usize, time: f64, duration: f64) -> usize
    ensures { result ≡ block_bytes size outputs time duration }
{
    let channels = outputs.min(8);
    let n = size as usize;
    match process_refusal(n, 64 * channels, outputs, time, duration) {
        Some(_) => 0,
        None => 4 * (channels * n),
    }
}

// The bytes of a call's samples.
fn sound_bytes(call: Call, outputs: usize, time: f64, duration: f64) -> usize
    ensures { result ≡ sound_bytes call outputs time duration }
{
    match call {
        Call::Tick => tick_bytes(outputs, time, duration),
        Call::Process(n) => block_bytes(n, outputs, time, duration),
        _ => 0,
    }
}

// The room that a record needs: for lines as much as any record's may take, for bytes as many as its samples have.
pub fn room_for(
    times: &Times,
    levels: &Levels,
    marks: &Marks,
    numbers: &Numbers,
    form: Form,
    call: Call,
) -> usize
    ensures { (kind : ℕ) (pool samples : List Float) → length samples ≡ 512
        → result ≡ room_for form (left_by form kind (applied_to pool (engine_of (before times.now levels.now marks.now numbers.now)) call samples)
        (applied_out pool (engine_of (before times.now levels.now marks.now numbers.now)) call samples)) }
{
    match form {
        Form::Bytes => sound_bytes(
            call,
            numbers[CHANNELS] as usize,
            times[CLOCK],
            times[DURATION],
        ),
        Form::Lines => 4716,
    }
}

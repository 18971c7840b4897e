// The words on standard error.

// Which refusal stops the tape.
pub(crate) fn refusal<E: Eprint>(rt: &E, number: u64) {
    let _ = eprint!(rt; "trail: refusal {number} stops the tape\n");
}

pub(crate) fn usage<E: Eprint>(rt: &E) {
    streams::say(rt, b"usage: trail [--pool FILE] <TAPE\n");
    streams::say(
        rt,
        b"Lists the tape on standard input: for each record its kind, its refusal or 0, and the counts waiting, sounding, finished and let go; then the samples' bits, a line a channel.\n",
    );
    streams::say(rt, &pool_file::option_line());
    streams::say(
        rt,
        b"docs/HANDBOOK.md says what a tape is; tape_text makes one from text.\n",
    );
}

// Runs document 01's cases of reading, the examples of its readings and one of each refusal, and writes what each gives.
#![tactic(auto)]

mod messages;

fn main(rt: HostRuntime) {
    if command::helped(
        &rt,
        b"usage: cases\nRuns worked cases of reading and writes what each gives.\n",
    ) {
        return;
    }
    messages::document_cases();
    messages::row_and_level_cases();
    messages::short_cases();
    messages::name_cases();
    messages::piece_cases();
    messages::size_and_version_cases();
    messages::class_cases();
}

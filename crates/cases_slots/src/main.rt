// Runs document 01's cases of sizes, slots and references, members' names, and one of each refusal, and writes what each gives.
#![tactic(auto)]

mod calls;
mod types;

fn main(rt: HostRuntime) {
    if command::helped(
        &rt,
        b"usage: cases_slots\nRuns worked cases of sizes, slots, references and member names and writes what each gives.\n",
    ) {
        return;
    }
    types::slot_cases();
    types::unmapped_cases();
    types::reference_cases();
    types::size_cases();
    types::name_cases();
    calls::bad_tables();
}

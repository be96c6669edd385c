// Runs document 02's cases of two blocks made one, and one of each refusal, and writes what each gives.
#![tactic(auto)]

mod blocks;
mod calls;
mod workspaces;

fn main(rt: HostRuntime) {
    if command::helped(
        &rt,
        b"usage: cases_join\nRuns worked cases of two blocks of records made one and writes what each gives.\n",
    ) {
        return;
    }
    blocks::joined_cases();
    blocks::room_cases();
    blocks::empty_cases();
    blocks::length_cases();
    blocks::name_cases();
    workspaces::workspace_case();
    blocks::refused_cases();
    calls::bad_tables();
}

// Runs document 01's cases of writing and reading back, and one of each refusal, and writes what each gives.
#![tactic(auto)]

mod calls;
mod types;

fn main(rt: HostRuntime) {
    if command::helped(
        &rt,
        b"usage: cases_writing\nRuns worked cases of writing and reading back and writes what each gives.\n",
    ) {
        return;
    }
    types::editions_of_p();
    types::editions_of_an_array();
    types::p_read_back();
    types::array_read_back();
    types::sizes_and_names();
    types::orders_and_codes();
    types::numbers_past_their_bits();
    types::tag_and_rank_cases();
}

// Tables that no message gives.
use record_types::with_bad_tables;
use show::text;
use show_comparison::comparison_line;

// Records of no bytes, by tables whose types are not admitted.
pub fn bad_tables() {
    with_bad_tables(|label, table, pool| {
        text(label);
        text(b": ");
        comparison_line(compare::same(table, pool, b"", b""));
    });
}

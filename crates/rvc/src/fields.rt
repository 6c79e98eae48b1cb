// RULES 6 and 7: rows, classes, fields read and written; `dgns` has the names of the DGNs, `names` the rows by name.
pub use catalogue::{
    Class, Field, Looked, NotFound, NotRead, NotWritten, Reading, Row, ScaledReading, Span, Unit,
    Value, Writing, classify, dgns, has_instance, names, packed_rows, read, read_row,
    read_row_scaled, read_scaled, row_at, row_in, row_of, row_of_in, rows, rows_in, rows_of,
    steps_in_one, write, write_row,
};

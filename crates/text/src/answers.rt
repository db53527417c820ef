// What reading a chart text answers: one struct for code and definitions.
use chart::charts::Head;

// "n, alarm, row count": what is told of a chart that is read. Its rows stand at the front of the table.
#[derive(Clone, Copy)]
pub struct Heading {
    pub head: Head,
    pub rows: usize,
}

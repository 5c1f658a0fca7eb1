use logics::Record;

// An axiom that was entered: its record, its latest label, and whether it is in force.
#[derive(Clone, Copy, PartialEq, Eq, Debug, Default)]
pub struct Page {
    pub entry: Record,
    pub label: u32,
    pub stands: bool,
}

// A published goal and its boundary, absent where the goal has no support.
#[derive(Clone, Copy, PartialEq, Eq, Debug, Default)]
pub struct Row {
    pub goal: (u32, u32),
    pub boundary: Option<u32>,
}

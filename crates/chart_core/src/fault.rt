//! What makes a chart not valid.

/// The first fault of a chart, with the first node that has it in chart order: it lies deeper than 16; it is the 257th
/// step; an earlier step has its name; it names or reads a role that the chart hasn't; an earlier step in another
/// branch of a common parallel has its role and service; it reads more than four variables.
#[derive(Clone, Copy, Debug, PartialEq, Eq)]
pub enum ChartFault {
    TooDeep { node: u32 },
    TooManySteps { node: u32 },
    StepTwice { node: u32 },
    UnknownRole { node: u32 },
    SameService { node: u32 },
    TooManyReads { node: u32 },
}

//! The text of an instance reads as that instance. Each law is the contract of a function that does nothing.

ghost use Rattle.wire_instance_laws.specs.Lined.{LinesLead};
ghost use Rattle.wire_instance_laws.specs.Reading.{InstancesRead};

/// The text of an instance of a sound pattern, if it reads as scripts at all, reads as this instance: each
/// process has its node and its calls, under some numbers of keys and names.
pub fn instances_read()
    ensures { InstancesRead }
{}

/// The lines on which the calls of that text stand lead to the lines of the pattern that say these calls.
pub fn lines_lead()
    ensures { LinesLead }
{}

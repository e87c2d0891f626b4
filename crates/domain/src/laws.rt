//! Laws of the rows of domains.

ghost use Rattle.domain.specs.Fields.{FieldsAreGood};
ghost use Rattle.domain.specs.Life.{UntakenRowsGood};
ghost use Rattle.domain.specs.Lives.{ServicesAreThere};

/// In a bank of which no node is taken the rows of domains are right, and nothing is a root.
pub fn untaken_rows_are_good()
    ensures { UntakenRowsGood }
{}

/// Where the rows of domains are right, so are the fields of each domain: registers, break, descriptors, request, answer and marks.
pub fn fields_are_good()
    ensures { FieldsAreGood }
{}

/// Where the fixed nodes hold what they have to between turns, the life of each service may be read and set.
pub fn services_are_there()
    ensures { ServicesAreThere }
{}

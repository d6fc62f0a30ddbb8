//! The laws above the definitions of `specs/`. There is no code: each clause is a statement about all variables or problems.
ghost use Rattle.dcx_unknowns.specs.Laws.{UnknownsAreNumbered, PointsAreUnknowns, DomainsAreUnknowns, RaysAreUnknowns, UnknownsAreFew};
ghost use Rattle.dcx_unknowns.specs.EquationLaws.{EquationsReduce, EquationsHaveForms, EquationsDetermine};

/// Unknowns are numbered by the entries that have their own, variable by variable, and each has the kind that is demanded of
/// its variable.
pub fn unknowns_are_numbered()
    ensures { UnknownsAreNumbered }
{}

/// Where symmetric and diagonal variables are square, unknowns of their kinds are a point of the domain, and each point of
/// the domain is, on the entries of the variables, one of unknowns of their kinds.
pub fn points_are_unknowns()
    ensures { PointsAreUnknowns }
{}

/// The same of the domain of a problem.
pub fn domains_are_unknowns()
    ensures { DomainsAreUnknowns }
{}

/// The point of u + k d is the point of u plus k times the point of d.
pub fn rays_are_unknowns()
    ensures { RaysAreUnknowns }
{}

/// The variables of a problem have at most 400,000,000 unknowns.
pub fn unknowns_are_few()
    ensures { UnknownsAreFew }
{}

/// Forms that meet the equation of each node, with the rows of the graphs, are a reduced program of the problem: the point of
/// unknowns of their kinds is in the domain and goes along their rays, where the rows hold the forms stand for the nodes, and
/// each point of the domain has unknowns at which the forms are the values.
pub fn equations_reduce()
    ensures { EquationsReduce }
{}

/// There are forms that meet the equations, of each problem at each setting.
pub fn equations_have_forms()
    ensures { EquationsHaveForms }
{}

/// No two forms of the nodes meet the equations.
pub fn equations_determine()
    ensures { EquationsDetermine }
{}

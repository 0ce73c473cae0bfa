//! The laws of greedy solutions: there is at most one, and one where there is a solution; and unknowns that share no equation
//! are solved apart. They have nothing to run.

ghost use Rattle.matrix_models.specs.Blocks.{BlocksAreSolvedApart, GreedySolutionsAreJoined, SystemsAreSolvableByParts};
ghost use Rattle.matrix_models.specs.Greedy.{GreedySolutionIsUnique, SolvableSystemsHaveAGreedySolution};

/// A system and preferred values have at most one greedy solution.
pub fn greedy_solution_is_unique()
    ensures { GreedySolutionIsUnique }
{}

/// Each system that has a solution has a greedy one, whatever values are preferred.
pub fn solvable_systems_have_a_greedy_solution()
    ensures { SolvableSystemsHaveAGreedySolution }
{}

/// Unknowns that share no equation with the others have the values of the greedy solution of their own equations.
pub fn blocks_are_solved_apart()
    ensures { BlocksAreSolvedApart }
{}

/// A system whose unknowns fall into blocks has a solution exactly where each block's part has one.
pub fn systems_are_solvable_by_parts()
    ensures { SystemsAreSolvableByParts }
{}

/// The greedy solutions of the parts, joined, are the greedy solution of the system.
pub fn greedy_solutions_are_joined()
    ensures { GreedySolutionsAreJoined }
{}

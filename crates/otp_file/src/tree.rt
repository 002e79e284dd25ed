//! The trees of a file: a supervisor's table, and the trees of its children.
ghost use Rattle.std.specs.Prelude.{◌≡◌, ◌+◌, ◌<◌, ◌≤◌, Ok, Err, Some, IfErr, IfOk, None, OnOk, length, map};
ghost use Rattle.std.specs.List.{flat_map};
ghost use Rattle.otp_spec.specs.Flags.{flags_fault};
ghost use Rattle.otp_spec.specs.Lawful.{first_fault};
ghost use Rattle.otp_spec.specs.Supervisor.{IsLawful};
ghost use Rattle.otp_spec.specs.declared.flags.Strategy.TheVariants.{SimpleOneForOne};
ghost use Rattle.otp_file.specs.Faults.{answer_of};
ghost use Rattle.otp_file.specs.Files.{IsOfTree, IsToml, Says, SaysAt};
ghost use Rattle.otp_file.specs.Trees.{document_said, faults_at, said_from, table_said, tables_from, tables_of, tables_under, trees_of};
ghost use Rattle.otp_file.specs.declared.fault.TreeFault.TheVariants.{NotToml, OutOfMemory};
ghost use Rattle.toml.specs.View.{table_view, view};

use crate::child::tree_of;
use crate::fault::{TableFault, TreeFault};
use crate::limits::MAX_DEPTH;
use crate::supervisor::{children_in, nested_of, supervisor_in};
use otp_spec::{MAX_CHILDREN, MAX_TABLES, SupSpec};
use std::alloc::Global;
use std::marker::Model;
use toml::{Table, Value};

/// What a tree file says of a supervisor: what it is opened with, and the trees of those of its children that are
/// supervisors with a table of their own. Contracts see the tables of the whole tree by their numbers.
#[derive(Drop)]
pub struct TreeSpec {
    supervisor: SupSpec,
    nested: Vec<usize>,
    trees: Vec<TreeSpec>,
}

impl Model for TreeSpec {
    ghost use Rattle.std.specs.Prelude.{◌+◌, length};
    ghost use Rattle.std.specs.List.{flat_map};
    ghost use Rattle.std.proofs.Common.{arith};
    ghost use Rattle.otp_file.specs.Sizes.{most_le-below};
    ghost use Rattle.otp_file.specs.Trees.{Tree, tables_of};

    ghost Value = { Tree };

    ghost view = { λ t. record {
      flags = t.supervisor.flags;
      specs = t.supervisor.specs;
      nested = t.nested.items;
      below = flat_map tables_of t.trees.items;
    } };

    ghost size = { λ t. length t.below + 1 };

    ghost size_decreases = { λ t h. omega (arith, most_le-below t.trees.items) };
}

impl TreeSpec {
    /// What the supervisor is opened with.
    pub fn supervisor(&self) -> &SupSpec
        ensures flags { result.now.flags ≡ self.now.flags }
        ensures specs { result.now.specs ≡ self.now.specs }
    {
        &self.supervisor
    }

    /// The places of the children that have a tree, in start order.
    pub fn nested(&self) -> &[usize]
        ensures { result.now ≡ self.now.nested }
    {
        &self.nested
    }

    /// The trees of these children.
    pub fn trees(&self) -> &[TreeSpec]
        ensures { flat_map tables_of result.now ≡ self.now.below }
    {
        &self.trees
    }

    /// What the supervisor is opened with, the places of the children that have a tree, and their trees. Takes no memory.
    pub fn into_parts(self) -> (SupSpec, Vec<usize>, Vec<TreeSpec>)
        ensures flags { result.0.flags ≡ self.flags }
        ensures specs { result.0.specs ≡ self.specs }
        ensures nested { result.1.items ≡ self.nested }
        ensures trees { flat_map tables_of result.2.items ≡ self.below }
    {
        let TreeSpec {
            supervisor,
            nested,
            trees,
        } = self;
        (supervisor, nested, trees)
    }
}

/// Reads a tree file: a TOML document whose top table is the root supervisor.
///
/// Keys of a supervisor: `strategy`, `intensity`, `period` (seconds), `auto_shutdown` (Supervisor Behaviour,
/// "Supervisor Flags") and `child`, an array of tables. Keys of a child: `id`, `start`, `restart`, `significant`,
/// `shutdown` (milliseconds, `"brutal_kill"` or `"infinity"`), `type`, `modules` (an array of at most four texts,
/// or `"dynamic"`; Supervisor Behaviour, "Child Specification") and `tree`, the table of a supervisor. All but `id` and
/// `start` have the manual's defaults; a child with a tree is a supervisor by default.
///
/// # Errors
///
/// [`TreeFault::OutOfMemory`]; [`TreeFault::NotToml`] for bytes that are no TOML document; and else the first fault of
/// the document. The tables are walked from the root, each whole before the trees of its children, those in order and
/// each to its full depth. Of a table, in this order: [`TreeFault::TooDeep`], [`TreeFault::TooManyTables`], an unlisted
/// key, its values, each child in order (its keys, what it lacks, its values, its tree), the number of children, and what
/// [`otp_spec::check_childspecs`] finds.
pub fn read_tree(alloc: Global, text: &[u8]) -> Result<TreeSpec, TreeFault>
    ensures tree { IfOk result (λ tree. Says text.now (Ok tree)) }
    ensures first_fault { IfErr result (λ fault. IsOfTree fault → Says text.now (Err fault)) }
    ensures not_toml { result ≡ Err NotToml → ¬ IsToml text.now }

    // What a document says may be opened as a supervisor.
    ensures lawful { IfOk result (λ tree. IsLawful tree.flags tree.specs) }
    ensures lawful_flags { IfOk result (λ tree. flags_fault tree.flags ≡ None) }
    ensures lawful_specs { IfOk result (λ tree. first_fault tree.specs (Some tree.flags.auto_shutdown) ≡ None) }
    ensures limit { IfOk result (λ tree. length tree.specs ≤ MAX_CHILDREN) }
    ensures simple { IfOk result (λ tree. tree.flags.strategy ≡ SimpleOneForOne → length tree.specs ≡ 1) }
{
    match read_located(alloc, text) {
        Ok(tree) => Ok(tree),
        Err(why) => Err(why.fault),
    }
}

/// Reads a tree file as [`read_tree`] does; a fault of the document comes with the number of the table that has it.
pub fn read_located(alloc: Global, text: &[u8]) -> Result<TreeSpec, TableFault>
    ensures tree { IfOk result (λ tree. SaysAt text.now (Ok tree)) }
    ensures first_fault { IfErr result (λ why. IsOfTree why.fault → SaysAt text.now (Err why)) }
    ensures not_toml { IfErr result (λ why. why.fault ≡ NotToml → ¬ IsToml text.now) }
    ensures lawful { IfOk result (λ tree. IsLawful tree.flags tree.specs) }
    ensures lawful_flags { IfOk result (λ tree. flags_fault tree.flags ≡ None) }
{
    let table = match toml::table_from_slice(alloc, text) {
        Ok(table) => table,
        Err(error) if error.is_memory() => return Err(at(0, TreeFault::OutOfMemory)),
        Err(_) => return Err(at(0, TreeFault::NotToml)),
    };
    let mut next = 0;
    read_table(alloc, &table, MAX_DEPTH, &mut next)
}

/// A fault of the table of this number.
fn at(table: usize, fault: TreeFault) -> TableFault
    ensures { result ≡ record { table = table; fault = fault } }
{
    TableFault { table, fault }
}

/// The tree that a table says, in which `next` is the number of that table, and there may be so many levels of tables
/// from it on. Then `next` is the number of the next table.
#[cycle(walk)]
fn read_table(
    alloc: Global,
    table: &Table,
    levels: usize,
    next: &mut usize,
) -> Result<TreeSpec, TableFault>
    ensures tree { IfOk result (λ tree. said_from next.old (tables_from levels (table_view table.now)) ≡ Ok (tables_of tree)) }
    ensures next { OnOk result (next.new ≡ next.old + length (tables_from levels (table_view table.now))) }
    ensures fault { IfErr result (λ why. ¬ (why.fault ≡ OutOfMemory)
        → said_from next.old (tables_from levels (table_view table.now)) ≡ Err why) }
    ensures toml { IfErr result (λ why. ¬ (why.fault ≡ NotToml)) }
    ensures lawful { IfOk result (λ tree. IsLawful tree.flags tree.specs) }
    ensures lawful_flags { IfOk result (λ tree. flags_fault tree.flags ≡ None) }
{
    let (supervisor, nested) = read_own(alloc, table, levels, *next)?;
    *next += 1;
    let trees = read_trees(alloc, children_in(table), levels - 1, next)?;
    Ok(TreeSpec {
        supervisor,
        nested,
        trees,
    })
}

/// The trees of these children, of which `next` is the number of the first.
#[cycle(walk)]
fn read_trees(
    alloc: Global,
    children: &[Value],
    levels: usize,
    next: &mut usize,
) -> Result<Vec<TreeSpec>, TableFault>
    ensures trees { IfOk result (λ trees. said_from next.old (tables_under levels (trees_of (map view children.now)))
        ≡ Ok (flat_map tables_of trees.items)) }
    ensures next { OnOk result (next.new ≡ next.old + length (tables_under levels (trees_of (map view children.now)))) }
    ensures fault { IfErr result (λ why. ¬ (why.fault ≡ OutOfMemory)
        → said_from next.old (tables_under levels (trees_of (map view children.now))) ≡ Err why) }
    ensures toml { IfErr result (λ why. ¬ (why.fault ≡ NotToml)) }
{
    let mut trees = Vec::new(alloc);
    for child in children {
        if let Some(table) = tree_of(child) {
            let tree = read_table(alloc, table, levels, next)?;
            if trees.push(tree).is_err() {
                return Err(at(*next, TreeFault::OutOfMemory));
            }
        }
    }
    Ok(trees)
}

/// What the table of this number says, its children's trees aside.
fn read_own(
    alloc: Global,
    table: &Table,
    levels: usize,
    number: usize,
) -> Result<(SupSpec, Vec<usize>), TableFault>
    ensures own { IfOk result (λ own. answer_of (faults_at number levels (table_view table.now)) (table_said (table_view table.now))
        ≡ Ok (record { flags = own.0.flags; specs = own.0.specs; nested = own.1.items })) }
    ensures fault { IfErr result (λ why. ¬ (why.fault ≡ OutOfMemory)
        → answer_of (faults_at number levels (table_view table.now)) (table_said (table_view table.now)) ≡ Err why) }
    ensures toml { IfErr result (λ why. ¬ (why.fault ≡ NotToml)) }
    ensures levels { OnOk result (0 < levels) }
    ensures number { OnOk result (number < MAX_TABLES) }
    ensures lawful { IfOk result (λ own. IsLawful own.0.flags own.0.specs) }
    ensures lawful_flags { IfOk result (λ own. flags_fault own.0.flags ≡ None) }
{
    if levels == 0 {
        return Err(at(number, TreeFault::TooDeep));
    }
    if number >= MAX_TABLES {
        return Err(at(number, TreeFault::TooManyTables));
    }
    let supervisor = match supervisor_in(alloc, table) {
        Ok(supervisor) => supervisor,
        Err(fault) => return Err(at(number, fault)),
    };
    match nested_of(alloc, children_in(table)) {
        Ok(nested) => Ok((supervisor, nested)),
        Err(_) => Err(at(number, TreeFault::OutOfMemory)),
    }
}

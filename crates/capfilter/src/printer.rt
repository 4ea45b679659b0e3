// The canonical text of a tree.
ghost use Rattle.std.specs.Prelude.{◌≡◌, ◌<◌, ◌+◌, [], ◌∷◌, ◌++◌, length, IfOk, OnOk, codes};
ghost use Rattle.capfilter.specs.Canonical.{canonical};
ghost use Rattle.capfilter.specs.Nodes.{AreBelow, root, trees, tree_at};
ghost use Rattle.capfilter.specs.Tasks.{IsTaskOf, AreTasksOf, task_text, to_print, size, task_size, total_size, Puts};

use crate::node::Node;
use crate::text::put_prim;
use std::alloc::Global;
use textout::{Memory, put_text};

/// What is still to be printed: the tree of a node, or a word.
#[derive(Clone, Copy, Debug)]
enum Task {
    Show(usize),
    AndWord,
    OrWord,
    Close,
}

fn put_task(tasks: &mut Vec<Task>, task: Task) -> Result<(), Memory>
    ensures { OnOk result (tasks.new.items ≡ tasks.old.items ++ task ∷ []) }
{
    tasks.push(task)?;
    Ok(())
}

fn put_join(
    out: &mut Vec<u8>,
    tasks: &mut Vec<Task>,
    left: usize,
    word: Task,
    right: usize,
) -> Result<(), Memory>
    ensures text { OnOk result (out.new.items ≡ out.old.items ++ codes "(") }
    ensures tasks { OnOk result (tasks.new.items ≡ tasks.old.items ++ Task.Close ∷ Task.Show right ∷ word ∷ Task.Show left ∷ []) }
{
    put_text(out, "(")?;
    put_task(tasks, Task::Close)?;
    put_task(tasks, Task::Show(right))?;
    put_task(tasks, word)?;
    put_task(tasks, Task::Show(left))
}

/// Prints what a node begins with, and leaves the rest to be printed.
fn put_node(out: &mut Vec<u8>, tasks: &mut Vec<Task>, node: Node) -> Result<(), Memory>
    ensures { OnOk result (Puts node out.old.items out.new.items tasks.old.items tasks.new.items) }
{
    match node {
        Node::Test(prim) => put_prim(out, prim),
        Node::Not(inner) => {
            put_text(out, "not ")?;
            put_task(tasks, Task::Show(inner))
        }
        Node::And(left, right) => put_join(out, tasks, left, Task::AndWord, right),
        Node::Or(left, right) => put_join(out, tasks, left, Task::OrWord, right),
    }
}

/// Prints what the tree of a node begins with, and leaves the rest to be printed.
fn put_tree(
    out: &mut Vec<u8>,
    tasks: &mut Vec<Task>,
    nodes: &[Node],
    i: usize,
) -> Result<(), Memory>
    requires below { AreBelow nodes.now }
    requires within { i < length nodes.now }
    requires others { AreTasksOf (length nodes.now) tasks.old.items }
    ensures text { OnOk result (out.new.items ++ to_print (trees nodes.now) tasks.new.items
        ≡ out.old.items ++ (canonical (tree_at (trees nodes.now) i) ++ to_print (trees nodes.now) tasks.old.items)) }
    ensures less { OnOk result (total_size (trees nodes.now) tasks.new.items < size (tree_at (trees nodes.now) i) + total_size (trees nodes.now) tasks.old.items) }
    ensures within { OnOk result (AreTasksOf (length nodes.now) tasks.new.items) }
{
    put_node(out, tasks, nodes[i])
}

/// Prints a task, or its begin.
fn put_step(
    out: &mut Vec<u8>,
    tasks: &mut Vec<Task>,
    nodes: &[Node],
    task: Task,
) -> Result<(), Memory>
    requires below { AreBelow nodes.now }
    requires within { IsTaskOf (length nodes.now) task }
    requires others { AreTasksOf (length nodes.now) tasks.old.items }
    ensures text { OnOk result (out.new.items ++ to_print (trees nodes.now) tasks.new.items
        ≡ out.old.items ++ (task_text (trees nodes.now) task ++ to_print (trees nodes.now) tasks.old.items)) }
    ensures less { OnOk result (total_size (trees nodes.now) tasks.new.items < task_size (trees nodes.now) task + total_size (trees nodes.now) tasks.old.items) }
    ensures within { OnOk result (AreTasksOf (length nodes.now) tasks.new.items) }
{
    match task {
        Task::Show(i) => put_tree(out, tasks, nodes, i),
        Task::AndWord => put_text(out, " and "),
        Task::OrWord => put_text(out, " or "),
        Task::Close => put_text(out, ")"),
    }
}

/// The canonical text of the last node's tree.
pub(crate) fn shown_of(alloc: Global, nodes: &[Node]) -> Result<Vec<u8>, Memory>
    requires some { 0 < length nodes.now }
    requires below { AreBelow nodes.now }
    ensures { IfOk result (λ text. text.items ≡ canonical (root nodes.now)) }
{
    let mut out = Vec::new(alloc);
    let mut tasks = Vec::new(alloc);
    put_task(&mut tasks, Task::Show(nodes.len() - 1))?;
    while let Some(task) = tasks.pop() {
        put_step(&mut out, &mut tasks, nodes, task)?;
    }
    Ok(out)
}

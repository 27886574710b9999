//! The nodes of the search tree.
ghost use Rattle.std.specs.Prelude.{◌≡◌, All, Contains, IfOk, IfSome};
ghost use Rattle.dfs_growth.specs.Nodes.{Prefix};
ghost use Rattle.dfs_growth.specs.Projections.{IsRoomFor};

use super::data::{RUNNING, Shape, add_names, add_numbers, job};
use dfs_growth::{Node, expand, whole_roots_alone};
use mine_model::{NoMemory, Row};
use mining_job::Job;
use search_tree::Grown;
use snapshot_project::{Room, begin_whole_alone};
use std::alloc::Global;
use std::fmt::Write;
use std::thread::Threads;

/// The sequences that have a pattern; then what each of the nodes grows into that have these places
/// among the roots, among the kids of that, and so on.
fn told(alloc: Global, job: &Job, path: &[u32]) -> Result<String, NoMemory> {
    let mut room = Room::new(alloc, job)?;
    told_in(alloc, job, path, &mut room)
}

/// The same in this room.
fn told_in<'a>(
    alloc: Global,
    job: &'a Job,
    path: &[u32],
    room: &mut Room<'a>,
) -> Result<String, NoMemory>
    requires { IsRoomFor job.now room.old }
{
    let mut text = String::new(alloc);
    let nodes = rooted(alloc, job, &mut text)?;
    follow_all(alloc, job, nodes, path, room, &mut text)?;
    Ok(text)
}

/// The roots without a pivot. Tells the sequences that have a pattern.
fn rooted<'a>(alloc: Global, job: &'a Job, text: &mut String) -> Result<Vec<Node<'a>>, NoMemory>
    ensures { IfOk result (λ nodes. All (λ (node : Prefix). node.problem ≡ job.now) nodes.items) }
{
    let (part, _start) = begin_whole_alone(alloc, job)?;
    add_numbers(text, part.sequences())?;
    whole_roots_alone(alloc, job)
}

/// Grows the node with the first place among the nodes, that with the next among its kids, and so on.
fn follow_all<'a>(
    alloc: Global,
    job: &'a Job,
    nodes: Vec<Node<'a>>,
    path: &[u32],
    room: &mut Room<'a>,
    text: &mut String,
) -> Result<(), NoMemory>
    requires problem { All (λ (node : Prefix). node.problem ≡ job.now) nodes.items }
    requires room { IsRoomFor job.now room.old }
{
    let mut nodes = nodes;
    for place in path {
        nodes = follow(alloc, job, nodes, *place, room, text)?;
    }
    Ok(())
}

/// Grows the node at this place, tells it, and answers its kids.
fn follow<'a>(
    alloc: Global,
    job: &'a Job,
    nodes: Vec<Node<'a>>,
    place: u32,
    room: &mut Room<'a>,
    text: &mut String,
) -> Result<Vec<Node<'a>>, NoMemory>
    requires problem { All (λ (node : Prefix). node.problem ≡ job.now) nodes.items }
    requires room { IsRoomFor job.now room.old }
    ensures room { IsRoomFor job.now room.new }
    ensures problem { IfOk result (λ kids. All (λ (kid : Prefix). kid.problem ≡ job.now) kids.items) }
{
    let Some(node) = node_at(nodes, place) else {
        text.push_str("; no node")?;
        return Ok(Vec::new(alloc));
    };
    let Grown { label, row, kids } = expand(alloc, node, room)?;
    add_node(text, label.numbers(), &row, kids.len())?;
    Ok(kids)
}

/// The node at this place.
fn node_at(nodes: Vec<Node>, place: u32) -> Option<Node>
    ensures { IfSome result (Contains nodes.entry.items) }
{
    let mut left = place;
    'nodes: for node in nodes {
        if left == 0 {
            return Some(node);
        }
        left -= 1;
    }
    None
}

/// Writes the label, the row, and how many kids there are.
fn add_node(
    text: &mut String,
    label: &[u32],
    row: &Option<Row>,
    kids: usize,
) -> Result<(), NoMemory> {
    text.push(';')?;
    add_numbers(text, label)?;
    if let Some(row) = row {
        text.push_str(" =")?;
        add_names(text, row.pattern.items())?;
        write!(text, " {}", row.support)?;
    }
    write!(text, " +{kids}")?;
    Ok(())
}

fn grown<T: Threads + Sync>(rt: &T, alloc: Global, path: &[u32]) -> Result<String, NoMemory> {
    let job = job(rt, alloc, Shape::Climbing, &RUNNING, 1, 2)?;
    told(alloc, &job, path)
}

// The kids of the second node are 0 3 1, 0 3 2 and 0 3 3.
#[test]
fn grows_the_tree_of_the_running_data(rt: HostRuntime) {
    let want = " 0 1 4; 0 +1; 0 3 +3; 0 3 1 = a1 b 3 +0; no node";
    assert_eq!(rt; grown(&rt, rt.alloc(), &[0, 0, 0, 1]).as_deref(), Ok(want));
}

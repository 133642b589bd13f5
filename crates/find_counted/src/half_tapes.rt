// The two half tapes of a run, and the beginnings of half tapes that it shows.
use crate::limits::MAX_NODES;
use machine_text::{Dir, State, Sym, Table};
use std::alloc::{AllocError as NoMemory, Global};

// A run from the blank tape: what stands on the left and on the right of the head, the nearest cell last, without blank
// cells far away.
#[derive(Drop)]
pub(crate) struct HalfTapes {
    pub left: Vec<Sym>,
    pub right: Vec<Sym>,
    pub read: Sym,
    pub state: State,
}

impl HalfTapes {
    // At the start.
    pub fn new(alloc: Global) -> HalfTapes {
        HalfTapes {
            left: Vec::new(alloc),
            right: Vec::new(alloc),
            read: Sym::Zero,
            state: State(0),
        }
    }

    // One step; whether there was one.
    pub fn step(&mut self, t: &Table) -> Result<bool, NoMemory> {
        if self.state.0 >= t.states() {
            return Ok(false);
        }
        let Some(entry) = t.get(self.state, self.read) else {
            return Ok(false);
        };
        self.read = match entry.dir {
            Dir::L => moved(&mut self.right, &mut self.left, entry.write)?,
            Dir::R => moved(&mut self.left, &mut self.right, entry.write)?,
        };
        self.state = entry.next;
        Ok(true)
    }

    // The half tape on a side, and the other one.
    pub fn on(&self, side: Dir) -> (&[Sym], &[Sym]) {
        match side {
            Dir::L => (&self.left, &self.right),
            Dir::R => (&self.right, &self.left),
        }
    }

    // What stands in a place of the half tape on a side, counted from its end that is far away: behind its last cell
    // the head's state, the symbol that it reads, and the other half tape.
    pub fn mark(&self, side: Dir, place: usize) -> u16 {
        let (half, other) = self.on(side);
        match place.checked_sub(half.len()) {
            None => match half.get(place) {
                Some(s) => *s as u16,
                None => 0,
            },
            Some(0) => u16::from(self.state.0).saturating_add(2),
            Some(1) => self.read as u16,
            Some(further) => match other.len().checked_sub(further.saturating_sub(1)) {
                Some(at) => match other.get(at) {
                    Some(s) => *s as u16,
                    None => 0,
                },
                None => 0,
            },
        }
    }
}

// Leaves a symbol behind; what is then read.
fn moved(behind: &mut Vec<Sym>, ahead: &mut Vec<Sym>, write: Sym) -> Result<Sym, NoMemory> {
    if !behind.is_empty() || write == Sym::One {
        behind.push(write)?;
    }
    Ok(ahead.pop().unwrap_or(Sym::Zero))
}

// A beginning of a half tape, read from far away.
#[derive(Drop)]
struct Node {
    zero: Option<usize>,
    one: Option<usize>,
    // rising
    windows: Vec<u16>,
    since: u64,
}

impl Node {
    fn new(alloc: Global, since: u64) -> Node {
        Node {
            zero: None,
            one: None,
            windows: Vec::new(alloc),
            since,
        }
    }

    fn child(&self, s: Sym) -> Option<usize> {
        match s {
            Sym::Zero => self.zero,
            Sym::One => self.one,
        }
    }
}

// The beginnings by their numbers; 0 is the blank one.
#[derive(Drop)]
pub(crate) struct HalfTree {
    alloc: Global,
    side: Dir,
    window: usize,
    nodes: Vec<Node>,
}

impl HalfTree {
    // Of no run yet. What follows a beginning is told by so many symbols.
    pub fn new(alloc: Global, side: Dir, window: usize) -> Result<HalfTree, NoMemory> {
        let mut nodes = Vec::new(alloc);
        let mut root = Node::new(alloc, 0);
        root.zero = Some(0);
        nodes.push(root)?;
        Ok(HalfTree {
            alloc,
            side,
            window,
            nodes,
        })
    }

    // Takes in a configuration of a run; whether there was room for it.
    pub fn add(&mut self, tapes: &HalfTapes, time: u64) -> Result<bool, NoMemory> {
        let mut node = 0;
        self.see(node, tapes, 0)?;
        let (half, _) = tapes.on(self.side);
        for k in 0..half.len() {
            match self.child_made(node, half[k], time)? {
                Some(child) => node = child,
                None => return Ok(false),
            }
            self.see(node, tapes, k + 1)?;
        }
        Ok(true)
    }

    // The child of a node, which is made where it isn't there; none where there is no room.
    fn child_made(&mut self, node: usize, s: Sym, time: u64) -> Result<Option<usize>, NoMemory> {
        if let Some(child) = self.child(node, s) {
            return Ok(Some(child));
        }
        let child = self.nodes.len();
        if child >= MAX_NODES {
            return Ok(None);
        }
        self.nodes.push(Node::new(self.alloc, time))?;
        if let Some(node) = self.nodes.get_mut(node) {
            match s {
                Sym::Zero => node.zero = Some(child),
                Sym::One => node.one = Some(child),
            }
        }
        Ok(Some(child))
    }

    // Notes what follows a beginning, which ends at a place.
    fn see(&mut self, node: usize, tapes: &HalfTapes, place: usize) -> Result<(), NoMemory> {
        let mut seen: u16 = 0;
        for k in 0..self.window {
            let mark = tapes.mark(self.side, place.saturating_add(k));
            seen = seen.wrapping_mul(16).wrapping_add(mark);
        }
        let Some(node) = self.nodes.get_mut(node) else {
            return Ok(());
        };
        if let Err(at) = node.windows.binary_search(&seen) {
            if at <= node.windows.len() {
                node.windows.insert(at, seen)?;
            }
        }
        Ok(())
    }

    fn child(&self, node: usize, s: Sym) -> Option<usize> {
        self.nodes.get(node)?.child(s)
    }

    // The child of a node that was seen before a time.
    pub fn child_before(&self, node: usize, s: Sym, time: u64) -> Option<usize> {
        let child = self.child(node, s)?;
        let since = self.nodes.get(child)?.since;
        if since < time { Some(child) } else { None }
    }

    // Whether the same was seen to follow two beginnings.
    pub fn are_alike(&self, a: usize, b: usize) -> bool {
        match (self.nodes.get(a), self.nodes.get(b)) {
            (Some(a), Some(b)) => a.windows.as_slice() == b.windows.as_slice(),
            _ => false,
        }
    }
}

// The nodes that are open while the node table is written, as a stack of frames: a frame is read, one frame more is put on top, and a frame
// gets names more. Which nodes these are is for `nodes` to say.
#![tactic(auto)]

ghost use Rattle.std.specs.Prelude.{◌≡◌, ◌+◌, ◌<◌, List, replicate};
ghost use Rattle.frames.specs.declared.Frame.{Frame};
ghost use Rattle.frames.specs.Frames.{PushAsk, RaiseAsk, frame_at, frame_count, no_frame, raised, with_frame};

use std::marker::Model;

// For how many frames there is a place.
pub const FRAMES: usize = 203;

// An open node: one more than its depth, the greatest length of its names so far, where its names end, and how many records stand behind it.
#[derive(Clone, Copy)]
pub struct Frame {
    pub depth: u8,
    pub width: u8,
    pub end: u16,
    pub mark: u16,
}

// The frames count from 1: number 0 is no node and has depth 0. Which one is on top is said beside the stack, in `LeftOpen`: a field behind
// the array would be kept in memory, and the writer of the node table would take 2 in a hundred more instructions.
#[derive(Drop)]
pub struct Stack {
    frames: [Frame; FRAMES],
}

// Clauses see the frames.
impl Model for Stack {
    ghost Value = { List Frame };

    ghost view = { λ s. s.frames };
}

// What is left open when a name is written: the number of the top frame, how many records there are, and of the node that begins
// with the name where its names end, how many records stand behind it and the greatest length of its names.
#[derive(Clone, Copy)]
pub struct LeftOpen {
    pub top: usize,
    pub count: usize,
    pub end: usize,
    pub mark: usize,
    pub width: usize,
}

impl Stack {
    // No node is open.
    pub fn new() -> Stack
        ensures { result ≡ replicate frame_count no_frame }
    {
        Stack {
            frames: [Frame {
                depth: 0,
                width: 0,
                end: 0,
                mark: 0,
            }; FRAMES],
        }
    }

    // Frame t.
    pub fn frame(&self, t: usize) -> Frame
        requires { t < frame_count }
        ensures { result ≡ frame_at self.now t }
    {
        self.frames[t]
    }

    // A frame on top of those that are left: of a node of that shifted depth, whose first node so far is the one that begins with the name.
    pub fn push(&mut self, depth: usize, p: LeftOpen)
        requires { PushAsk depth p }
        ensures { self.new ≡ with_frame self.old (p.top + 1) depth p.width p.end p.mark }
    {
        self.frames[p.top + 1] = Frame {
            depth: depth as u8,
            width: p.width as u8,
            end: p.end as u16,
            mark: p.mark as u16,
        };
    }

    // The top one of the frames that are left holds the name, too.
    pub fn raise(&mut self, p: LeftOpen)
        requires { RaiseAsk p }
        ensures { self.new ≡ raised self.old p.top p.width }
    {
        let width = usize::from(self.frames[p.top].width);
        self.frames[p.top].width = p.width.max(width) as u8;
    }
}

//! A data pipe by itself.

ghost use Rattle.std.specs.Prelude.{◌≡◌, false, take, drop, IfOk, IfErr, if◌then◌else◌};
ghost use Rattle.circular_buffer.specs.Buffer.{buffer};
ghost use Rattle.bind_model.specs.declared.flow.Flow.TheVariants as flows;
ghost use Rattle.bind_model.specs.declared.flow.Flowed.TheVariants as flowed;
ghost use Rattle.data_pipe.specs.Pipe.{room};
ghost use Rattle.data_pipe.specs.Moving.{told, after, made, IsRefused, WantsToGet};
ghost use Rattle.data_pipe.specs.Table.{begun_at, bytes_for};
ghost use Rattle.bind_model.specs.Data.{is_busy};

use crate::refused::{DataRefused, DataWhy};
use crate::side::Side;
use bind_model::limits::MAX_DATA_BYTES;
use bind_model::{Flow, Flowed};
use circular_buffer::HeapCircularBuffer;
use mj_base::Items;
use std::alloc::{AllocError, Global};
use std::marker::Model;

/// The first bytes of a ring, at most so many.
fn first_bytes(
    alloc: Global,
    ring: &HeapCircularBuffer<u8>,
    count: usize,
) -> Result<Vec<u8>, AllocError>
    ensures { IfOk result (λ bytes. bytes.items ≡ take count ring.now.items) }
{
    let (front, back) = ring.as_slices();
    let of_front = front.len().min(count);
    let of_back = back.len().min(count - of_front);
    let mut bytes = Vec::with_capacity(alloc, of_front + of_back)?;
    bytes.extend_from_slice(&front[..of_front])?;
    bytes.extend_from_slice(&back[..of_back])?;
    Ok(bytes)
}

/// Takes the first bytes of a ring away, at most so many.
fn remove_first(ring: &mut HeapCircularBuffer<u8>, count: usize)
    ensures { ring.new ≡ buffer (drop count ring.old.items) ring.old.capacity }
{
    let held = ring.len();
    ring.truncate_front(held - held.min(count));
}

/// A data pipe. Contracts see how many bytes it holds at most, those that it holds, and what was begun at
/// its producer and its consumer. Which of these is gone each call is told: the table of all things knows it,
/// and so no two places have to agree on it. Bytes to put are borrowed, so a refusal has none to hand back.
#[derive(Drop)]
pub struct DataPipe {
    ring: HeapCircularBuffer<u8>,
    /// The room that was told when a put was begun.
    space: Option<u32>,
    /// How many bytes were shown when a get was begun.
    shown: Option<u32>,
}

impl Model for DataPipe {
    ghost use Rattle.data_pipe.specs.Pipe.{Pipe};
    ghost use Rattle.data_pipe.specs.Begins.{seen_as, Fits};

    ghost Value = { Pipe };

    ghost view = { λ pipe. seen_as pipe.ring pipe.space pipe.shown };

    ghost invariant = { λ pipe. Fits pipe.ring pipe.space pipe.shown };
}

impl DataPipe {
    /// A data pipe that holds at most so many bytes, 1 to 65,536; its memory is taken here.
    pub fn new(alloc: Global, capacity: u32) -> Result<DataPipe, DataRefused>
        ensures ok { IfOk result (λ pipe. made capacity ≡ Ok pipe) }
        ensures err { IfErr result (λ refused. IsRefused (made capacity) refused) }
    {
        if capacity == 0 || capacity > MAX_DATA_BYTES {
            return Err(DataRefused::No(DataWhy::BadSize(capacity)));
        }
        let Ok(ring) = HeapCircularBuffer::with_capacity(alloc, capacity as usize) else {
            return Err(DataRefused::Memory);
        };
        Ok(DataPipe {
            ring,
            space: None,
            shown: None,
        })
    }

    /// For how many more bytes there is room.
    pub fn room(&self) -> u32
        ensures { result ≡ room self.now }
    {
        let _space = &self.space;
        (self.ring.capacity() - self.ring.len()) as u32
    }

    /// The first bytes that are held, at most so many. They stay.
    pub fn first(&self, alloc: Global, count: u32) -> Result<Items<u8>, AllocError>
        ensures { IfOk result (λ bytes. bytes ≡ take count self.now.held) }
    {
        Ok(Items::from_vec(first_bytes(alloc, &self.ring, count as usize)?))
    }

    /// Puts bytes in: all, or nothing where that is said and there isn't room; else as many as there is room
    /// for. How many went in. Takes no memory.
    pub fn put(&mut self, bytes: &[u8], all: bool, consumer_gone: bool) -> Result<u32, DataWhy>
        ensures ok { IfOk result (λ count. (told self.old consumer_gone (flows.Put bytes.now all) ≡ Ok (flowed.Put count))
            × (self.new ≡ after (flows.Put bytes.now all) (flowed.Put count) self.old)) }
        ensures err { IfErr result (λ why. (told self.old consumer_gone (flows.Put bytes.now all) ≡ Err why) × (self.new ≡ self.old)) }
    {
        let busy = self.space.is_some();
        if busy {
            return Err(DataWhy::Busy);
        }
        if consumer_gone {
            return Err(DataWhy::Disconnected);
        }
        let room = self.room();
        if room == 0 && !bytes.is_empty() {
            return Err(DataWhy::Full);
        }
        if all && bytes.len() > room as usize {
            return Err(DataWhy::Short(room));
        }
        Ok(self.ring.fill_from_slice(bytes) as u32)
    }

    /// Begins a put: for how many bytes there is room. Takes no memory.
    pub fn begin_put(&mut self, consumer_gone: bool) -> Result<u32, DataWhy>
        ensures ok { IfOk result (λ count. (told self.old consumer_gone flows.BeginPut ≡ Ok (flowed.Space count))
            × (self.new ≡ after flows.BeginPut (flowed.Space count) self.old)) }
        ensures err { IfErr result (λ why. (told self.old consumer_gone flows.BeginPut ≡ Err why) × (self.new ≡ self.old)) }
    {
        if self.space.is_some() {
            return Err(DataWhy::Busy);
        }
        if consumer_gone {
            return Err(DataWhy::Disconnected);
        }
        let room = self.room();
        if room == 0 {
            return Err(DataWhy::Full);
        }
        self.space = Some(room);
        Ok(room)
    }

    /// Ends a put that was begun, with all of these bytes, at most as many as were told then. How many went
    /// in. Takes no memory.
    pub fn end_put(&mut self, bytes: &[u8], consumer_gone: bool) -> Result<u32, DataWhy>
        ensures ok { IfOk result (λ count. (told self.old consumer_gone (flows.EndPut bytes.now) ≡ Ok (flowed.Put count))
            × (self.new ≡ after (flows.EndPut bytes.now) (flowed.Put count) self.old)) }
        ensures err { IfErr result (λ why. (told self.old consumer_gone (flows.EndPut bytes.now) ≡ Err why) × (self.new ≡ self.old)) }
    {
        let Some(space) = self.space else {
            return Err(DataWhy::Idle);
        };
        if consumer_gone {
            return Err(DataWhy::Disconnected);
        }
        if bytes.len() > space as usize {
            return Err(DataWhy::TooLong);
        }
        self.space = None;
        Ok(self.ring.fill_from_slice(bytes) as u32)
    }

    /// Gets the first bytes out: so many, or nothing where that is said and fewer are held; else as many as
    /// are held.
    pub fn get(
        &mut self,
        alloc: Global,
        count: u32,
        all: bool,
        producer_gone: bool,
    ) -> Result<Items<u8>, DataRefused>
        ensures ok { IfOk result (λ bytes. (told self.old producer_gone (flows.Get count all) ≡ Ok (flowed.Bytes bytes))
            × (self.new ≡ after (flows.Get count all) (flowed.Bytes bytes) self.old)) }
        ensures err { IfErr result (λ refused. IsRefused (told self.old producer_gone (flows.Get count all)) refused × (self.new ≡ self.old)) }
    {
        if self.shown.is_some() {
            return Err(DataRefused::No(DataWhy::Busy));
        }
        let held = self.ring.len() as u32;
        if count > 0 && held == 0 {
            return Err(DataRefused::No(nothing_held(producer_gone)));
        }
        if all && count > held {
            return Err(DataRefused::No(DataWhy::Short(held)));
        }
        let Ok(bytes) = self.first(alloc, count) else {
            return Err(DataRefused::Memory);
        };
        let wanted = count as usize;
        remove_first(&mut self.ring, wanted);
        Ok(bytes)
    }

    /// Begins a get: all bytes that are held. They stay.
    pub fn begin_get(
        &mut self,
        alloc: Global,
        producer_gone: bool,
    ) -> Result<Items<u8>, DataRefused>
        ensures ok { IfOk result (λ bytes. (told self.old producer_gone flows.BeginGet ≡ Ok (flowed.View bytes))
            × (self.new ≡ after flows.BeginGet (flowed.View bytes) self.old)) }
        ensures err { IfErr result (λ refused. IsRefused (told self.old producer_gone flows.BeginGet) refused × (self.new ≡ self.old)) }
    {
        if self.shown.is_some() {
            return Err(DataRefused::No(DataWhy::Busy));
        }
        let held = self.ring.len() as u32;
        if held == 0 {
            return Err(DataRefused::No(nothing_held(producer_gone)));
        }
        let Ok(bytes) = self.first(alloc, held) else {
            return Err(DataRefused::Memory);
        };
        self.shown = Some(held);
        Ok(bytes)
    }

    /// Ends a get that was begun: the first bytes go, at most as many as were shown then. Takes no memory.
    pub fn end_get(&mut self, count: u32) -> Result<(), DataWhy>
        ensures ok { IfOk result (λ _. (told self.old false (flows.EndGet count) ≡ Ok flowed.Ended)
            × (self.new ≡ after (flows.EndGet count) flowed.Ended self.old)) }
        ensures err { IfErr result (λ why. (told self.old false (flows.EndGet count) ≡ Err why) × (self.new ≡ self.old)) }
    {
        let Some(shown) = self.shown else {
            return Err(DataWhy::Idle);
        };
        if count > shown {
            return Err(DataWhy::TooLong);
        }
        self.shown = None;
        remove_first(&mut self.ring, count as usize);
        Ok(())
    }

    /// Whether something was begun at a side, and didn't end.
    pub fn is_begun(&self, side: Side) -> bool
        ensures { result ≡ is_busy (begun_at side self.now) }
    {
        match side {
            Side::Producer => self.space.is_some(),
            Side::Consumer => self.shown.is_some(),
        }
    }

    /// The bytes that are told of what is asked, where nothing refuses it.
    pub fn told_bytes(&self, alloc: Global, flow: &Flow) -> Result<Items<u8>, AllocError>
        ensures { IfOk result (λ bytes. bytes ≡ bytes_for self.now flow.now) }
    {
        match flow {
            Flow::Get(count, _) => self.first(alloc, *count),
            Flow::BeginGet => self.first(alloc, self.ring.len() as u32),
            Flow::Put(_, _) | Flow::BeginPut | Flow::EndPut(_) | Flow::EndGet(_) => {
                Ok(Items::new(alloc))
            }
        }
    }

    /// What is asked, with the other side gone or not. Refused, nothing changes. Takes memory only where bytes
    /// come out.
    pub fn flow(&mut self, alloc: Global, flow: &Flow, gone: bool) -> Result<Flowed, DataRefused>
        ensures ok { IfOk result (λ flowed. (told self.old gone flow.now ≡ Ok flowed) × (self.new ≡ after flow.now flowed self.old)) }
        ensures err { IfErr result (λ refused. IsRefused (told self.old gone flow.now) refused × (self.new ≡ self.old)) }
        ensures wants { IfErr result (λ refused. WantsToGet flow.now refused) }
    {
        match flow {
            Flow::Put(bytes, all) => match self.put(bytes.as_slice(), *all, gone) {
                Ok(count) => Ok(Flowed::Put(count)),
                Err(why) => Err(DataRefused::No(why)),
            },
            Flow::Get(count, all) => Ok(Flowed::Bytes(self.get(alloc, *count, *all, gone)?)),
            Flow::BeginPut => match self.begin_put(gone) {
                Ok(room) => Ok(Flowed::Space(room)),
                Err(why) => Err(DataRefused::No(why)),
            },
            Flow::EndPut(bytes) => match self.end_put(bytes.as_slice(), gone) {
                Ok(count) => Ok(Flowed::Put(count)),
                Err(why) => Err(DataRefused::No(why)),
            },
            Flow::BeginGet => Ok(Flowed::View(self.begin_get(alloc, gone)?)),
            Flow::EndGet(count) => match self.end_get(*count) {
                Ok(()) => Ok(Flowed::Ended),
                Err(why) => Err(DataRefused::No(why)),
            },
        }
    }
}

/// Nothing is held: more may come, or none can.
fn nothing_held(producer_gone: bool) -> DataWhy
    ensures { result ≡ (if producer_gone then DataWhy.PeerClosed else DataWhy.Empty) }
{
    if producer_gone {
        DataWhy::PeerClosed
    } else {
        DataWhy::Empty
    }
}

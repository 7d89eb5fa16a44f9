//! A wire to slaves that answer as a seed decides.
use crate::scans::image::{any_word, endless_image, random_image};
use byteorder::{ByteOrder, LittleEndian};
use ec_frame::Frame;
use ec_wire::{Trouble, Wire};
use std::alloc::{AllocError, Global};
use std::time::Duration;
use test_data::Random;

/// The most slaves.
const MOST_SLAVES: usize = 3;

/// Where the second datagram of a frame has its command, its ADO and its data; its counter is the last two bytes.
const COMMAND: usize = 24;

const ADO: usize = 28;

const CONTENT: usize = 34;

const COUNTER: usize = 2;

/// The commands of a scan.
const FPRD: u8 = 4;

const BRD: u8 = 7;

const BWR: u8 = 8;

/// The registers that it reads and writes.
const AL_CONTROL: u16 = 0x0120;

const AL_STATUS: u16 = 0x0130;

const SII: u16 = 0x0502;

const RAM: u16 = 0x1000;

/// Slaves that answer as a seed decides. All of them show the same SII.
#[derive(Drop)]
pub struct Hostile {
    random: Random,
    image: Vec<u16>,
    slaves: u16,
    frame: Frame,
    /// The word address that was asked for, and the state.
    address: usize,
    state: u8,
    /// How many polls a word takes, and how many of them were made. A wait that a seed makes is besides.
    polls: u32,
    polled: u32,
    /// The index and the subindex of the last request, three bytes.
    object: [u8; 3],
}

impl Hostile {
    /// The slaves of a source of numbers.
    pub fn new(alloc: Global, random: Random) -> Result<Hostile, AllocError> {
        let mut random = random;
        let image = random_image(alloc, &mut random)?;
        let slaves = random.place(MOST_SLAVES + 1) as u16;
        Ok(Hostile::of(random, image, slaves, 0))
    }

    /// A slave with categories as long as a scan reads, each word of which takes so many polls.
    pub fn slow(alloc: Global, polls: u32) -> Result<Hostile, AllocError> {
        Ok(Hostile::of(Random::new(0), endless_image(alloc)?, 1, polls))
    }

    fn of(random: Random, image: Vec<u16>, slaves: u16, polls: u32) -> Hostile {
        Hostile {
            random,
            image,
            slaves,
            frame: Frame::new(),
            address: 0,
            state: 1,
            polls,
            polled: 0,
            object: [0; 3],
        }
    }

    /// Notes what a frame writes.
    fn note(&mut self, ado: u16, content: &[u8]) {
        if ado == SII && content.len() == 6 {
            self.address = LittleEndian::read_u32(&content[2..6]) as usize;
            self.polled = 0;
        } else if ado == AL_CONTROL {
            self.state = content.first().copied().unwrap_or(1) % 16;
        } else if ado >= RAM && content.len() >= 12 {
            self.object = [content[9], content[10], content[11]];
        }
    }

    /// Fills the data that a frame reads, and returns its working counter.
    fn fill(&mut self, ado: u16, content: &mut [u8]) -> u16 {
        content.fill(0);
        match ado {
            AL_STATUS => self.fill_status(content),
            SII => self.fill_words(content),
            _ => self.fill_reply(content),
        }
    }

    fn fill_status(&mut self, content: &mut [u8]) -> u16 {
        if let Some(first) = content.get_mut(0) {
            *first = self.state;
        }
        1
    }

    /// Two words of the SII. A word past its end is an error, but for a few.
    fn fill_words(&mut self, content: &mut [u8]) -> u16 {
        if content.len() < 10 {
            return 1;
        }
        if self.polled < self.polls || self.random.in_hundred(2) {
            // busy
            self.polled = self.polled.saturating_add(1);
            content[1] = 0x80;
            return 1;
        }
        let low = self.word(self.address);
        let high = self.word(self.address.saturating_add(1));
        match (low, high) {
            (Some(low), Some(high)) => {
                LittleEndian::write_u16(&mut content[6..8], low);
                LittleEndian::write_u16(&mut content[8..10], high);
            }
            _ => content[1] = 0x20,
        }
        1
    }

    fn word(&mut self, address: usize) -> Option<u16> {
        match self.image.get(address) {
            Some(word) => Some(*word),
            None if self.random.in_hundred(50) => Some(any_word(&mut self.random)),
            None => None,
        }
    }

    /// A message: mostly the reply to the last request, with any value; or an abort, nothing, or any bytes.
    fn fill_reply(&mut self, content: &mut [u8]) -> u16 {
        if content.len() < 16 {
            return 1;
        }
        match self.random.below(40) {
            0 => 0,
            1 => {
                for byte in content {
                    *byte = self.random.byte();
                }
                1
            }
            2 => {
                self.write_reply(content, 0x80);
                1
            }
            _ => {
                self.write_reply(content, 0x43);
                1
            }
        }
    }

    /// Writes an SDO response with a command, and a small value or any.
    fn write_reply(&mut self, content: &mut [u8], command: u8) {
        let value = match self.random.below(4) {
            0 => self.random.word(),
            1 => 0x1600 + self.random.below(0x600),
            2 => 0x6000_0108 + 0x0001_0000 * self.random.below(16),
            _ => self.random.below(6),
        };
        if content.len() >= 16 {
            content[0] = 10;
            content[5] = 0x13;
            content[7] = 0x30;
            content[8] = command;
            content[9..12].copy_from_slice(&self.object);
            LittleEndian::write_u32(&mut content[12..16], value);
        }
    }

    /// Makes the frame that was sent its answer.
    fn answer(&mut self) {
        let mut frame = Frame::new();
        let _ = frame.try_extend_from_slice(self.frame.as_slice());
        let bytes = frame.as_mut_slice();
        if bytes.len() < CONTENT + COUNTER {
            return;
        }
        let end = bytes.len() - COUNTER;
        let (command, ado) = (bytes[COMMAND], LittleEndian::read_u16(&bytes[ADO..ADO + 2]));
        let counter = match command {
            BRD => {
                self.fill(ado, &mut bytes[CONTENT..end]);
                self.slaves
            }
            FPRD => self.fill(ado, &mut bytes[CONTENT..end]),
            BWR => {
                self.note(ado, &bytes[CONTENT..end]);
                self.slaves
            }
            _ => {
                self.note(ado, &bytes[CONTENT..end]);
                1
            }
        };
        LittleEndian::write_u16(&mut bytes[end..], counter);
        self.frame.clear();
        let _ = self.frame.try_extend_from_slice(frame.as_slice());
    }
}

impl Wire for Hostile {
    ghost use Rattle.ec_wire.specs.Wires.{silent};

    // no call is a fault
    ghost state = { λ _. silent 0 };

    fn failures(&self) -> u64 {
        0
    }

    fn trouble(&self) -> Trouble {
        Trouble::Unmade
    }

    fn send(&mut self, payload: &[u8]) {
        self.frame.clear();
        let _ = self.frame.try_extend_from_slice(payload);
    }

    fn recv(&mut self, buffer: &mut [u8]) -> usize {
        self.answer();
        let size = self.frame.len().min(buffer.len());
        buffer[..size].copy_from_slice(&self.frame.as_slice()[..size]);
        size
    }

    fn recv_within(&mut self, _waited: Duration, _buffer: &mut [u8]) -> Option<usize> {
        None
    }
}

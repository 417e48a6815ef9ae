//! Aliases are read, and slaves are given their station addresses, each by its position.
ghost use Rattle.std.specs.Prelude.{◌≡◌, ◌⊎◌, ◌+◌, ◌<◌, ◌≤◌, IfOk, OnErr, OnOk, filter, length, map, slice_index};
ghost use Rattle.hc_records.specs.Line.{IsCounted, line_from};
ghost use Rattle.hc_frames.specs.Arrived.{word_at};
ghost use Rattle.hc_segment.specs.Setup.{alias_frame, alias_frames, aliases_read, data_in, is_taken_once, machines_named, machines_scanned, named_count, station_frame, station_frames};

use crate::ChainFault;
use crate::line::SimulatedLine;
use hc_frames::building::{build_alias_read, build_station};
use hc_frames::limits::{FIRST_DATA, LEAST_FRAME};
use hc_records::line::members;
use hc_records::records::Declared;
use hc_rings::FrameBox;
use std::alloc::{AllocError, Global};
use std::sync::Wait;
use std::thread::Threads;

/// The number of positions that an address can name: position 65,536 is named as 0.
const POSITIONS: usize = 65_536;

/// The frame that reads the alias of the slave at a position.
#[tactic(auto, unfolding(crate::specs::Setup::alias_frame))]
fn alias_frame(alloc: Global, position: usize) -> Result<FrameBox, AllocError>
    ensures { IfOk result (λ frame. frame ≡ alias_frame position) }
{
    let mut frame = [0; LEAST_FRAME as usize];
    let _ = build_alias_read(&mut frame, (position % POSITIONS) as u16);
    FrameBox::of(alloc, &frame)
}

/// The frames that read the aliases of `count` slaves.
fn alias_frames(alloc: Global, count: usize) -> Result<Vec<FrameBox>, AllocError>
    ensures { IfOk result (λ frames. frames.items ≡ alias_frames count) }
{
    let mut frames = Vec::new(alloc);
    for position in 0..count {
        frames.push(alias_frame(alloc, position)?)?;
    }
    Ok(frames)
}

/// The frame that gives the slave at a position its station address.
#[tactic(auto, unfolding(crate::specs::Setup::station_frame))]
fn station_frame(alloc: Global, position: usize, station: u16) -> Result<FrameBox, AllocError>
    ensures { IfOk result (λ frame. frame ≡ station_frame position station) }
{
    let mut frame = [0; LEAST_FRAME as usize];
    let _ = build_station(&mut frame, (position % POSITIONS) as u16, station);
    FrameBox::of(alloc, &frame)
}

/// The frames that give the slaves of the line their station addresses.
fn station_frames(alloc: Global, groups: &[Declared]) -> Result<Vec<FrameBox>, AllocError>
    requires { IsCounted groups.now }
    ensures { IfOk result (λ frames. frames.items ≡ station_frames 0 (line_from 1 groups.now)) }
{
    let mut frames = Vec::new(alloc);
    for member in members(groups) {
        let position = frames.len();
        frames.push(station_frame(alloc, position, member.slave().station)?)?;
    }
    Ok(frames)
}

/// A byte of a frame. 0 if the frame has fewer bytes.
fn byte_at(frame: &[u8], at: usize) -> u8
    ensures { result ≡ slice_index frame.now at }
{
    match frame.get(at) {
        Some(byte) => *byte,
        None => 0,
    }
}

/// The number in two bytes of a frame, low byte first.
fn word_at(frame: &[u8], at: usize) -> u16
    requires { at < 65536 }
    ensures { result ≡ word_at frame.now at }
{
    u16::from(byte_at(frame, at)) + 256 * u16::from(byte_at(frame, at + 1))
}

/// The data of each frame of one datagram with two data bytes, as a number.
fn words_of(alloc: Global, frames: &[FrameBox]) -> Result<Vec<u16>, AllocError>
    ensures { IfOk result (λ words. words.items ≡ map data_in frames.now) }
{
    let mut words = Vec::new(alloc);
    for frame in frames {
        words.push(word_at(frame.bytes(), FIRST_DATA))?;
    }
    Ok(words)
}

/// The number of frames of one datagram with two data bytes that came back with the working counter 1.
fn taken_once(frames: &[FrameBox]) -> usize
    ensures { result ≡ length (filter is_taken_once frames.now) }
{
    let mut count = 0;
    for frame in frames {
        if word_at(frame.bytes(), FIRST_DATA + 2) == 1 {
            count += 1;
        }
    }
    count
}

impl SimulatedLine {
    /// Reads the configured station alias of each machine, by its position (APRD, ETG.1000.4, 5.4), and returns the aliases in
    /// the order of the line. `ChainFault` if an allocation failed: no machine was read then, or all were.
    #[tactic(auto, unfolding(crate::specs::Setup::aliases_read, crate::specs::Setup::machines_scanned))]
    pub fn scan<R: Threads + Wait + Sync>(
        &mut self,
        rt: &R,
        alloc: Global,
    ) -> Result<Vec<u16>, ChainFault>
        ensures aliases { IfOk result (λ aliases. aliases.items ≡ aliases_read self.old) }
        ensures machines { OnOk result (self.new ≡ machines_scanned self.old) }
        ensures stops { OnErr result ((self.new ≡ self.old) ⊎ (self.new ≡ machines_scanned self.old)) }
    {
        let frames = alias_frames(alloc, self.len())?;
        let frames = self.pass(rt, alloc, frames)?;
        Ok(words_of(alloc, &frames)?)
    }
    /// Gives each slave of the line of these groups its station address, by its position (APWR, ETG.1000.4, 5.4). Returns the
    /// number of writes that came back with the working counter 1. `ChainFault` if an allocation failed: no slave was written
    /// to then.
    #[tactic(auto, unfolding(crate::specs::Setup::named_count, crate::specs::Setup::machines_named))]
    pub fn name<R: Threads + Wait + Sync>(
        &mut self,
        rt: &R,
        alloc: Global,
        groups: &[Declared],
    ) -> Result<usize, ChainFault>
        requires { IsCounted groups.now }
        ensures named { IfOk result (λ named. named ≡ named_count self.old (line_from 1 groups.now)) }
        ensures machines { OnOk result (self.new ≡ machines_named self.old (line_from 1 groups.now)) }
        ensures unchanged { OnErr result (self.new ≡ self.old) }
    {
        let frames = station_frames(alloc, groups)?;
        let frames = self.pass(rt, alloc, frames)?;
        Ok(taken_once(&frames))
    }
}

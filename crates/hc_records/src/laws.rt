//! Laws that follow from the definitions in `specs/`. Each function does nothing, and its contract is a law that holds for
//! every list, line or project. Nobody calls it.
ghost use Rattle.hc_records.specs.Laws.{ProjectsArePackable, PlacesKeepTheList, AreasLieInside, WideAreasBeginBytes, DatagramsAreSendable, AreasShareNoBit, KeysAscend, KeysLieAboveStart, KeysLieBelowEnd, PackingIsLeast, CutsAreAlone, BoundariesAreCuts, DatagramsAreSpans, BoundariesHaveWidth, UntouchedIsSettled, OutputsComeFirst, TouchedCountsOnce};
ghost use Rattle.hc_records.specs.ImageLaws.{DatagramsTileTheImage, ImagesAreShort, VariablesLieInDatagrams, VariablesShareNoBit, VariablesAreInTheirParts};
ghost use Rattle.hc_records.specs.AddressLaws.{AddressesHaveOneDatagram};
ghost use Rattle.hc_records.specs.SpanLaws.{ProjectsHaveTaskLists, SettledSpansStay, SpansAreCutAlone, SpansAreDatagrams};
ghost use Rattle.hc_records.specs.ProjectLaws.{DeclaredGroupsKeepProjects, DeclaredGroupsKeepTheLine, ProjectsKeepTheirLimits, RanksAreCounted, ReachesHoldWidths, ReachesShareNoByte, StationsAreDistinct};

/// In a project each area of a task's list has 1 to 11,888 bits, so that a datagram can carry it,
/// whichever groups are present.
pub fn projects_are_packable()
    ensures { ProjectsArePackable }
{}

/// Packing drops no area, adds none and reorders none: the places of a list have the keys and the widths in bits of its areas,
/// in its order.
pub fn places_keep_the_list()
    ensures { PlacesKeepTheList }
{}

/// If each area of a list has 1 to 11,888 bits, each lies wholly in one datagram: the bit at which it begins and its bits
/// together are at most 11,888, the bits of the longest datagram's data.
pub fn areas_lie_inside()
    ensures { AreasLieInside }
{}

/// An area of 8 bits or more begins at the first bit of a byte.
pub fn wide_areas_begin_bytes()
    ensures { WideAreasBeginBytes }
{}

/// If each area of a list has 1 to 11,888 bits, each datagram of the task can be sent and carries something: it is 1 to 1,486
/// bytes long.
pub fn datagrams_are_sendable()
    ensures { DatagramsAreSendable }
{}

/// No two areas of a task share a bit: the earlier one in the task's list lies in an earlier datagram, or ends in the same
/// datagram at or before the bit at which the later one begins.
pub fn areas_share_no_bit()
    ensures { AreasShareNoBit }
{}

/// The keys of a task's list ascend strictly: outputs before inputs, then by the slave's rank, then by the area's index in its
/// slave's record.
pub fn keys_ascend()
    ensures { KeysAscend }
{}

/// The key of each area of a task's list lies above `Key::START`, whatever is declared.
pub fn keys_lie_above_start()
    ensures { KeysLieAboveStart }
{}

/// In a project, which declares at most 2,048 slaves, the key of each area of a task's list lies below
/// `Key::END`.
pub fn keys_lie_below_end()
    ensures { KeysLieBelowEnd }
{}

/// No other packing in the list's order needs fewer datagrams: every cut of a task's list, in its order, into parts that fit
/// one datagram each has at least as many parts as packing has datagrams.
pub fn packing_is_least()
    ensures { PackingIsLeast }
{}

/// If each area of a list has 1 to 11,888 bits, the areas from the first one of a second or later datagram on are as if they
/// were a list of their own: at the same bits, and in datagrams numbered on from those before. So areas before a boundary do
/// not move those after it.
pub fn cuts_are_alone()
    ensures { CutsAreAlone }
{}

/// If each area of a list has 1 to 11,888 bits, a second or later datagram begins exactly at the areas that do not fit the
/// datagram being filled: the bit at which such an area would begin and its bits together are over 11,888.
pub fn boundaries_are_cuts()
    ensures { BoundariesAreCuts }
{}

/// If a list has an area, and each has 1 to 11,888 bits, the task has one datagram more than boundary keys inside its list: its
/// datagrams are the spans between boundaries.
pub fn datagrams_are_spans()
    ensures { DatagramsAreSpans }
{}

/// If each area of a list has 1 to 11,888 bits, each boundary inside the list is the key of an area of it, with at least one
/// bit.
pub fn boundaries_have_width()
    ensures { BoundariesHaveWidth }
{}

/// An edit that does not change a task's list leaves all its spans settled: none is cut again.
pub fn untouched_is_settled()
    ensures { UntouchedIsSettled }
{}

/// The outputs of a task are the first bytes of its process data image, and its inputs the bytes after them: if the keys of a
/// list ascend, each output area ends by the bit 8 times the output length in bytes, and each input area begins at or after it.
/// Bits of the image are counted from 0: an area begins 8 times its datagram's offset in bytes, plus its own first bit, after
/// the image's start.
pub fn outputs_come_first()
    ensures { OutputsComeFirst }
{}

/// A changed width is never free: if the width in bits of a key differs between the old and the new list of a task, 0 for a key
/// that is not in the list, at least one span of the new list is not settled. The keys of both lists lie between `Key::START`
/// and `Key::END`.
pub fn touched_counts_once()
    ensures { TouchedCountsOnce }
{}

/// The datagrams of a task lie end to end in its process data image: the first begins at byte 0, each next one at the end of
/// the one before it, with offsets and lengths in bytes, and the last one ends with outputs and inputs together.
pub fn datagrams_tile_the_image()
    ensures { DatagramsTileTheImage }
{}

/// If each area of a list has 1 to 11,888 bits, and the task at most 16 datagrams, its process data image has at most 23,776
/// bytes: 16 times 1,486.
pub fn images_are_short()
    ensures { ImagesAreShort }
{}

/// In the line of a project whose tasks have at most 16 datagrams each, a logical address belongs to at
/// most one data byte range: two datagrams of the line, of one task or of two, share none.
pub fn addresses_have_one_datagram()
    ensures { AddressesHaveOneDatagram }
{}

/// A project keeps all limits: at most 512 groups and 2,048 slaves; for each slave a station address from 1 and at most 8
/// areas; for each area a sync manager up to 15, bytes of the memory from 0x1000 to 0x2FFF, a task below 8, at most 32 offered
/// and 32 assigned PDOs and at most 11,888 bits; for each PDO at most 64 entries, of 1 to 64 bits each.
pub fn projects_keep_their_limits()
    ensures { ProjectsKeepTheirLimits }
{}

/// In a project, which declares at most 2,048 slaves, each declared slave has a rank that fits 16 bits.
pub fn ranks_are_counted()
    ensures { RanksAreCounted }
{}

/// No two slaves of a project's line have one station address, whichever groups are present.
pub fn stations_are_distinct()
    ensures { StationsAreDistinct }
{}

/// In the line of a project each variable that has a place has 1 to 64 bits, all of them within the bytes
/// of one datagram of its task, which is one of the tasks 0 to 7 and has that datagram.
pub fn variables_lie_in_datagrams()
    ensures { VariablesLieInDatagrams }
{}

/// Two variables of a line share no bit: of two in one datagram of a task, one ends at or before the bit at which the other
/// begins.
pub fn variables_share_no_bit()
    ensures { VariablesShareNoBit }
{}

/// Output variables lie before the output length in bytes of their task's process data image, and input variables at or after
/// it. Bits of the image are counted from 0.
pub fn variables_are_in_their_parts()
    ensures { VariablesAreInTheirParts }
{}

/// In a project the bytes of its slave's memory that an area may take (its reach) hold the bits of its
/// assigned PDOs.
pub fn reaches_hold_widths()
    ensures { ReachesHoldWidths }
{}

/// In a project the areas of a slave take only bytes of its memory from 0x1000 to 0x2FFF, by their reach, and no byte is taken
/// by two of them.
pub fn reaches_share_no_byte()
    ensures { ReachesShareNoByte }
{}

/// If no fault of a declared group holds for a group, declaring it after the groups of a project leaves groups of a project.
pub fn declared_groups_keep_projects()
    ensures { DeclaredGroupsKeepProjects }
{}

/// A group that is declared after others, absent as it is, leaves the line unchanged.
pub fn declared_groups_keep_the_line()
    ensures { DeclaredGroupsKeepTheLine }
{}

/// In a project packing and spans apply to the list of each task, whichever groups are present: each area has 1 to 11,888 bits,
/// and the keys ascend between `Key::START` and `Key::END`.
pub fn projects_have_task_lists()
    ensures { ProjectsHaveTaskLists }
{}

/// The datagrams of a task are its spans: if each area of a list has 1 to 11,888 bits and the keys ascend between `Key::START`
/// and `Key::END`, the areas of a datagram are those of the span with its number, whose keys are the span's first one or a
/// later one and before the next span's.
pub fn spans_are_datagrams()
    ensures { SpansAreDatagrams }
{}

/// If each area of a list has 1 to 11,888 bits and the keys ascend between `Key::START` and `Key::END`, each span ends at the
/// first cut of the areas from its first key on, packed as a list of their own, and its datagram carries exactly the areas up
/// to there, at the bits that they have alone.
pub fn spans_are_cut_alone()
    ensures { SpansAreCutAlone }
{}

/// A settled span's datagram carries the same areas at the same bits: a span of a task's new list that
/// is settled was a span of the old list, with the same areas, each with the same width and the same
/// first bit in its datagram. The datagram's number may differ.
pub fn settled_spans_stay()
    ensures { SettledSpansStay }
{}

//! Laws that follow from the definitions in `specs/`. Each function does nothing, and its contract is a law that holds for
//! every record. Nobody calls it.
pub mod ready;
pub mod steady;
pub mod under_way;

ghost use Rattle.hc_events.specs.Accepted.{RecordsAreReachable};
ghost use Rattle.hc_events.specs.Ages.{SerialsAreOfData};
ghost use Rattle.hc_events.specs.AnswerLaws.{AnsweredAreOfTheLine, AnswersTheSerial, AwaitedAreAnswered, OneWriteIsAwaited, ProjectsHaveOwnNames, ReturnedFramesAnswer, SendTasksAreProgrammed, TwoWritesAreAwaited, WritesAreAwaitedAlone, WritesFitAFrame};
ghost use Rattle.hc_events.specs.CallLaws.{FramesFillTheirBytes, PreviewsAreFrames, WriteFramesFillTheirBytes, WritesFillTheirBytes};
ghost use Rattle.hc_events.specs.DataLaws.{SentDataAreValues};
ghost use Rattle.hc_events.specs.FaultLaws.{FaultsAreNumbered};
ghost use Rattle.hc_events.specs.Forgetting.{EventsWithoutForgetting, ForgettingLosesRegistersAlone, ForgottenWritesAreStale, HistoriesWithoutForgetting};
ghost use Rattle.hc_events.specs.Laws.{AnswersOnce, EditsLeaveNoSlot, EpochsAreCounted, ProposalsAreNumbered, SlotsFit, UnmovedIsOwedAsBefore};
ghost use Rattle.hc_events.specs.Names.{AddressesAreThoseSent, AnsweredAreNamed, ProjectsHaveFewDatagrams};
ghost use Rattle.hc_events.specs.UpdatesLaws.{ChangesAreLegal, ChangesShowAll, LegalChangesAgree, LegalChangesDecide, UpdatesAreOfTheHistory, UpdatesOnlyGrow, SlotsAreLastAnswers};
ghost use Rattle.hc_events.specs.SendingLaws.{FramesHaveTheirSizes, IndexesComeAgain, ProposalsCarryTheTasks, SendingsHaveSerials, SentFramesAreFound, SentWriteFramesAreFound, SentWritesAreFound, SerialsAscend, SerialsStayBelow};
ghost use Rattle.hc_events.specs.ViewLaws.{ChangesLeadOn, LegalEpochsFit, LegalJoins, ViewsAreReads};
ghost use Rattle.hc_events.specs.WriteLaws.{DoneWritesAreKnown, GoodAnswersMakeKnown};
ghost use Rattle.hc_events.specs.Stale.{StaleArrivalsCanGo, StaleChangesNothing, StaleIsJudgedWithout, StaleStaysStale, StepsKeepWithout, UnreadableChangesNothing};

/// A record with an arrival that was stale when it came, and the same record without it, whatever was recorded since: all later
/// events have the same answers after both, and lead to records that agree on the line, the epoch, the next serial, the input
/// images and the serials of their data, the output values, the known bytes, the register blocks that are under way, what the
/// registers may hold, the slaves that are unplugged, the tasks' epochs and steady data, and the updates.
pub fn stale_changes_nothing()
    ensures { StaleChangesNothing }
{}

/// A record, and that record without any of its stale arrivals: all later events have the same answers after both, and lead to
/// records that agree as with a single stale arrival left out.
pub fn stale_arrivals_can_go()
    ensures { StaleArrivalsCanGo }
{}

/// An arrival is stale exactly if it is stale to the record without the stale arrivals before it.
pub fn stale_is_judged_without()
    ensures { StaleIsJudgedWithout }
{}

/// An event leads from a record, and from that record without its stale arrivals, to records that are equal without theirs.
pub fn steps_keep_without()
    ensures { StepsKeepWithout }
{}

/// An arrival that is stale although a sending with its serial was made is stale for good. An arrival whose sending is still to
/// come is stale too, and may be its answer later.
pub fn stale_stays_stale()
    ensures { StaleStaysStale }
{}

/// An arrival that cannot be read leaves the record unchanged.
pub fn unreadable_changes_nothing()
    ensures { UnreadableChangesNothing }
{}

/// Each entry of a record that events led to was accepted when it came: an edit by the state, a post by its task and its
/// length, a frame of tasks because all its datagrams are the line's and nothing was owed or its tasks were ready, a frame of
/// register writes as the first owed block's, or of the first ones, or of the first ones that are not under way, as many as it
/// holds. No more sendings were made than there are serials, and the record begins with the groups that were opened. The laws of
/// such records have these premises.
pub fn records_are_reachable()
    ensures { RecordsAreReachable }
{}

/// An arrival answers a sending exactly if it has the sending's serial and, datagram for datagram, its commands, addresses and
/// lengths, and since the sending no edit was accepted and no such arrival came.
pub fn answers_the_serial()
    ensures { AnswersTheSerial }
{}

/// A sending is answered at most once: after an answer to it, no arrival with its serial answers anything,
/// whatever events come in between.
pub fn answers_once()
    ensures { AnswersOnce }
{}

/// A sending that is answered is of the present line: each of its datagrams has, in that line, the command, the address, the
/// length and the expected working counter with which it was sent.
pub fn answered_are_of_the_line()
    ensures { AnsweredAreOfTheLine }
{}

/// An arrival is not stale exactly if something is awaited with its serial and it has the commands, addresses and lengths of
/// that; then the sending that it answers is the awaited one.
pub fn awaited_are_answered()
    ensures { AwaitedAreAnswered }
{}

/// In a project's line at most two frames of register writes that carry the first owed blocks are awaited at any time: the
/// later one has one block, and the earlier one more. So no third one is awaited, and no two with several blocks. Frames of
/// further blocks may be awaited beside them, as many as were sent.
pub fn two_writes_are_awaited()
    ensures { TwoWritesAreAwaited }
{}

/// A frame of register writes has at most 74 datagrams.
pub fn writes_fit_a_frame()
    ensures { WritesFitAFrame }
{}

/// In a project's line a station address and a number name one register block.
pub fn projects_have_own_names()
    ensures { ProjectsHaveOwnNames }
{}

/// If no task of a project's line has more than 16 datagrams, each datagram has a number from 0 to 15.
pub fn projects_have_few_datagrams()
    ensures { ProjectsHaveFewDatagrams }
{}

/// If each register write was sent in a frame of its own, in a project's line, at most one that carries the first owed block
/// is awaited at any time.
pub fn one_write_is_awaited()
    ensures { OneWriteIsAwaited }
{}

/// If a register write is awaited, no frame of tasks is awaited, as long as no slave's registers were forgotten and each
/// frame of tasks was sent while nothing was owed.
pub fn writes_are_awaited_alone()
    ensures { WritesAreAwaitedAlone }
{}

/// Events that do not send ready tasks send each frame of tasks while nothing is owed.
pub fn send_tasks_are_programmed()
    ensures { SendTasksAreProgrammed }
{}

/// A frame of tasks or a register write that comes back, whatever the slaves made of its data and its working counters, and
/// whatever came in between, as long as no edit was accepted and it was not answered yet, is read and answers its sending. Each
/// datagram that was sent again since is stale; for each other one with the expected counter the data are those that came back.
pub fn returned_frames_answer()
    ensures { ReturnedFramesAnswer }
{}

/// An arrival in which a block's own datagram is good makes the bytes of the block's last write known. What is known of every
/// other block is unchanged.
pub fn good_answers_make_known()
    ensures { GoodAnswersMakeKnown }
{}

/// In a project's line, after frames of register writes that each had a good answer, only those blocks are owed that none of
/// the frames carried. So nothing is owed once they carried all that was owed. Posts, reads, frames of tasks, their answers and
/// stale arrivals may come in between; an edit, another register write and a lost slave may not.
pub fn done_writes_are_known()
    ensures { DoneWritesAreKnown }
{}

/// After an accepted edit no datagram has data, of any task, touched by the edit or not.
pub fn edits_leave_no_slot()
    ensures { EditsLeaveNoSlot }
{}

/// The data that a task reads of a datagram have as many bytes as the datagram has in the present line.
pub fn slots_fit()
    ensures { SlotsFit }
{}

/// The data that a task reads of a datagram are those of its last good answer, if no edit was accepted since; otherwise there
/// are none.
pub fn slots_are_last_answers()
    ensures { SlotsAreLastAnswers }
{}

/// The data that a task reads of a datagram have the serial of a sending; without data there is no serial.
pub fn serials_are_of_data()
    ensures { SerialsAreOfData }
{}

/// An arrival is compared with the sending that it answers, so each of its datagrams has the address that it was sent
/// with.
pub fn addresses_are_those_sent()
    ensures { AddressesAreThoseSent }
{}

/// In a frame of tasks that is answered each datagram's own logical address names the task and the number with which it
/// was sent, as long as no task of the line has more than 16 datagrams.
pub fn answered_are_named()
    ensures { AnsweredAreNamed }
{}

/// Accepted edits and good answers are reported in the order in which they came: events only add to the updates.
pub fn updates_only_grow()
    ensures { UpdatesOnlyGrow }
{}

/// The updates are exactly accepted edits and good answers: of datagrams of an arrival that answered their sending, that were
/// not sent again since, and that had the expected working counter.
pub fn updates_are_of_the_history()
    ensures { UpdatesAreOfTheHistory }
{}

/// A legal list of changes decides by itself, without any event, all that is read after it: the table of the line that its
/// edits lead to, the epoch, and for each datagram the data of its last good answer after the last swap.
pub fn legal_changes_decide()
    ensures { LegalChangesDecide }
{}

/// Two legal lists of changes of a project that name the same edits and the same good answers lead to the
/// same table, epoch and data.
pub fn legal_changes_agree()
    ensures { LegalChangesAgree }
{}

/// A legal list of changes that gives the edits and the good answers of a project's record leads to all that is read after that
/// record: the table of the line, the epoch, and the data of each datagram.
pub fn changes_show_all()
    ensures { ChangesShowAll }
{}

/// Two lists of changes in a row lead to the result of the second from the result of the first: table, epoch, data and state.
pub fn changes_lead_on()
    ensures { ChangesLeadOn }
{}

/// Two lists of changes in a row are legal exactly if the first is, and the second from the state after it.
pub fn legal_lists_join()
    ensures { LegalJoins }
{}

/// The epoch after a legal list of changes is at most the last one.
pub fn legal_epochs_fit()
    ensures { LegalEpochsFit }
{}

/// A legal list of changes that gives a record's edits and good answers shows for each task, 0 to 7, the answer to a read of
/// the record.
pub fn views_are_reads()
    ensures { ViewsAreReads }
{}

/// The changes that a project's record gives are legal for it: along their list each swap names an edit that
/// is accepted and leads to the next state's places, and each good answer is of a datagram of the state so
/// far and has its length.
pub fn changes_are_legal()
    ensures { ChangesAreLegal }
{}

/// A sending of the record has a serial exactly if it is below the next one, and then it is the sending before which this many
/// were made.
pub fn sendings_have_serials()
    ensures { SendingsHaveSerials }
{}

/// Of two sendings the one with the greater serial was made later.
pub fn serials_ascend()
    ensures { SerialsAscend }
{}

/// No sending of a project's record has the serial of alias reads and station writes, or one above it.
pub fn serials_stay_below()
    ensures { SerialsStayBelow }
{}

/// After an accepted sending of tasks each frame of the answer is the sending with its own serial.
pub fn sent_frames_are_found()
    ensures { SentFramesAreFound }
{}

/// An accepted register write is the first owed block's, and is the sending with the serial that was the
/// next one.
pub fn sent_writes_are_found()
    ensures { SentWritesAreFound }
{}

/// An accepted frame of register writes carries the first owed blocks, at least one, as many as it holds, and is the
/// sending with the serial that was the next one.
pub fn sent_write_frames_are_found()
    ensures { SentWriteFramesAreFound }
{}

/// The frames of tasks have the next serials, one after another in their order.
pub fn proposals_are_numbered()
    ensures { ProposalsAreNumbered }
{}

/// The frames of tasks carry, one after another, exactly the datagrams of the tasks in the tasks' order.
pub fn proposals_carry_the_tasks()
    ensures { ProposalsCarryTheTasks }
{}

/// The size of a frame of tasks is the number of bytes that are sent.
pub fn frames_have_their_sizes()
    ensures { FramesHaveTheirSizes }
{}

/// The frames of tasks, one after another, fill exactly the bytes that are asked for them.
pub fn frames_fill_their_bytes()
    ensures { FramesFillTheirBytes }
{}

/// The frame that writes the first owed block fills exactly the bytes that are asked for it.
pub fn writes_fill_their_bytes()
    ensures { WritesFillTheirBytes }
{}

/// The frame that writes several blocks fills exactly the bytes that are asked for it.
pub fn write_frames_fill_their_bytes()
    ensures { WriteFramesFillTheirBytes }
{}

/// A preview is a frame of its datagram alone with the next serial, and has the bytes of its text.
pub fn previews_are_frames()
    ensures { PreviewsAreFrames }
{}

/// A frame's index, which is in its byte 17, is the low byte of its serial. It comes again with the
/// 256th sending after it and with none before that, so an index names a sending only among 256.
pub fn indexes_come_again()
    ensures { IndexesComeAgain }
{}

/// A block with the same bytes at the same register of the same slave in the old line is owed after an edit exactly if it was
/// owed before it.
pub fn unmoved_is_owed_as_before()
    ensures { UnmovedIsOwedAsBefore }
{}

/// In the line of a project a datagram of a task is sent with its length. At the place of each of its output variables stand
/// the bits of that variable's value, and every other bit is 0: gaps and inputs.
pub fn sent_data_are_values()
    ensures { SentDataAreValues }
{}

/// The epoch of the line's state is the number of edits that were accepted.
pub fn epochs_are_counted()
    ensures { EpochsAreCounted }
{}

/// The faults have the numbers 1 to 37 without 14: 1 to 13 and 30 to 35 are the numbers of edits' faults, 15 to 19 are the
/// core's own, 20 to 27 are those of frames, 28 is `Memory`, 29 is `Room`, 36 is `Waits`, and 37 is `UnderWay`.
pub fn faults_are_numbered()
    ensures { FaultsAreNumbered }
{}

/// After a slave was forgotten nothing is known of its register blocks, so all of them are owed. Everything else
/// is as before: line, epoch, next serial, images and their serials, output values, changes, what is known of
/// other slaves, the awaited frames of tasks, and the awaited writes of other slaves' blocks.
pub fn forgetting_loses_registers_alone()
    ensures { ForgettingLosesRegistersAlone }
{}

/// A write of a lost slave's block that was sent before confirms nothing: every frame that comes back for it is stale.
pub fn forgotten_writes_are_stale()
    ensures { ForgottenWritesAreStale }
{}

/// For a history in which no slave was lost and each register write has a frame of its own, the definitions agree with the
/// simpler ones that know nothing else.
pub fn histories_without_forgetting()
    ensures { HistoriesWithoutForgetting }
{}

/// If all events are edits, posts, sendings of tasks, register writes of one block each, arrivals and reads, the definitions
/// without the other events give each event the same answer, and the same history.
pub fn events_without_forgetting()
    ensures { EventsWithoutForgetting }
{}

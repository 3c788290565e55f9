mod due;
mod judge_calls;
mod judges;
mod record;
mod select;
mod slave;
